// Documents whose claims are true since no whole number lies between.

/// No even number is odd: certificates that round, behind these first lines.
#[macro_export]
macro_rules! even {
    ($first:literal) => {
        concat!(
            $first,
            "program Even
declare
  x : 0..9
  y : 0..9
assign
  stay: x := x
end
proof Even
  safe: defined by text;
  odd: invariant not (2 * x = 2 * y + 1) by text;
end
certificates
1: case 1 sum 1*1 1*3 sum 1*2 1*3;
2: round 2 1*5 sum 1*6 2*7;
3: case 2 case 2 sum 1*1 1*5 sum 1*2 1*5 round 2 1*5 sum 1*6 2*7;
end
"
        )
    };
}

/// No number is one and a half: certificates of which one splits, behind these first lines.
#[macro_export]
macro_rules! half {
    ($first:literal) => {
        concat!(
            $first,
            "program Half
declare
  x : 0..3
initially
  x = 0
assign
  turn: x := 3 - x
end
proof Half
  safe: defined by text;
  no: invariant not (2 * x = 3) by text;
end
certificates
1: case 1 sum 1*2 1*3 sum 1*1 1*3;
2: sum 2*4 1*5;
3: case 2 case 2 sum 1*2 1*3 sum 1*1 1*3 split 1 1 sum 1*4 2*5 sum 1*3 2*5;
end
"
        )
    };
}
