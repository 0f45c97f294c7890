// A counter from 0 to 3, with what is claimed of it.

/// The counter, between these first lines of a document and the rest.
#[macro_export]
macro_rules! counter {
    ($first:literal $(, $rest:literal)*) => {
        concat!(
            $first,
            "program Count
declare
  x : 0..3
initially
  x = 0
assign
  inc: x := x + 1 if x < 3
end
"
            $(, $rest)*
        )
    };
}

/// The counter with a proof of this invariant, between these first lines and the rest.
#[macro_export]
macro_rules! bounded_counter {
    ($first:literal, $claim:literal $(, $rest:literal)*) => {
        $crate::counter!(
            $first,
            "proof Count
  safe: defined by text;
  top: invariant ",
            $claim,
            " by text;
end
"
            $(, $rest)*
        )
    };
}

/// The same with three certificates, of which the second is this, and with these last lines.
#[macro_export]
macro_rules! certified_counter {
    ($first:literal, $claim:literal, $second:literal, $last:literal) => {
        $crate::bounded_counter!(
            $first,
            $claim,
            "certificates
1: case 1 sum 1*1 1*4 sum 1*3 1*4;
2: ",
            $second,
            ";
3: case 1 case 1 sum 1*1 1*5 sum 1*4 1*5 case 1 sum 1*4 1*5 sum 1*2 1*5;
",
            $last
        )
    };
}

/// The counter with certificates.
pub const COUNT: &str = certified_counter!("unity 1\n", "x <= 3", "sum 1*2 1*5", "end\n");
