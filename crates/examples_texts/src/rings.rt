// The document of a ring.

/// The token of a ring goes down from this place, one statement a place.
#[macro_export]
macro_rules! ring {
    ($last:literal) => {
        concat!(
            "unity 1
program Ring
declare
  at : 0..",
            $last,
            "
initially
  at = ",
            $last,
            "
assign
  <[] i : 1..",
            $last,
            " :: pass: at := i - 1 if at = i |>
  [] wrap: at := ",
            $last,
            " if at = 0
end
proof Ring
  safe: defined by text;
  step(m : 1..",
            $last,
            "): true and at = m ensures (true and at < m) or at = 0 by text with pass[m];
  goal: true leadsto at = 0 by induct(m : 1..",
            $last,
            ", at, true, at = 0, from step[m]);
  home: at = 0 ensures at = ",
            $last,
            " by text with wrap;
  again: true leadsto at = ",
            $last,
            " by trans(from goal, from home);
end
"
        )
    };
}
