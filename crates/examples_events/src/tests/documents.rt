//! The documents, as they stand in `examples/` and its folder `mistakes/`, with the codes that stand beside them there.
use case_tables::Code;
use examples_texts::{bounded_counter, certified_counter, counter, even, half};

/// A document, and the code of its first fault; none where it is accepted.
pub type Row = (&'static str, Option<Code>);

/// `share`: with `case` and `share`.
pub const SHARE: &str = certified_counter!(
    "unity 2\n",
    "x <= 3",
    "share 3 -1*1 sum 1*2 1*6 sum 1*5 1*6",
    "end\n"
);

/// Documents with a core form.
pub const READ: &[Row] = &[
    (SHARE, None),
    (
        // last_bit
        "unity 2
# A quotient by hand: whatever x is, halving it leaves 0 or 1.
program Bit
declare
  x : 0..9
assign
  stay: x := x
end
proof Bit
  safe: defined by text;
  bit: invariant x mod 2 <= 1 by text;
end
certificates
1: case 1 sum 1*1 1*3 sum 1*2 1*3;
2: quot 1 sum 1*4 1*5;
3: case 2 case 2 sum 1*1 1*3 sum 1*2 1*3 quot 2 sum 1*4 1*5;
end
",
        None,
    ),
    (
        // splitting
        half!(
            "unity 1
# The last certificate asks whether x is at most 1 or at least 2 (`split 1 1`: the first variable, at 1): neither
# side has a value of which twice is 3.
"
        ),
        None,
    ),
    (
        // rounding
        even!(
            "unity 1
# No even number is odd. Among whole numbers the two sides of 2 * x = 2 * y + 1 are never equal, yet among all
# numbers they can be: so the certificate divides by 2 and rounds (`round`), and then a sum is below 0.
"
        ),
        None,
    ),
    (
        // mistakes/certificate_left_over
        certified_counter!(
            "unity 1\n# a certificate past the last obligation\n",
            "x <= 3",
            "sum 1*2 1*5",
            "4: sum;\nend\n"
        ),
        Some(Code::CertSurplus),
    ),
    (
        // mistakes/no_such_fact
        certified_counter!(
            "unity 1\n# a fact that there is not\n",
            "x <= 3",
            "sum 1*2 1*6",
            "end\n"
        ),
        Some(Code::NoSuchFact),
    ),
    (
        // mistakes/quot_of_an_or
        counter!(
            "unity 2\n# a `quot` where two cases wait, and no quotient\n",
            "proof Count
  safe: defined by text;
end
certificates
1: quot 1 sum 1*1 1*4;
end
"
        ),
        Some(Code::NothingToQuot),
    ),
    (
        // mistakes/certificate_missing
        bounded_counter!(
            "unity 1\n# the last certificate is not there\n",
            "x <= 3",
            "certificates
1: case 1 sum 1*1 1*4 sum 1*3 1*4;
2: sum 1*2 1*5;
end
"
        ),
        Some(Code::CertMissing),
    ),
    (
        // count_without_proof
        counter!("unity 1\n"),
        None,
    ),
    (
        // mistakes/no_defined
        counter!(
            "unity 1\n# a proof without a `defined` step\n",
            "proof Count
  keep: stable x = 3 by text;
end
"
        ),
        Some(Code::DefinedMissing),
    ),
];

/// Documents with a first fault.
pub const REFUSED: &[Row] = &[
    (
        // unknown_name
        "unity 1
program P
declare x : 0..3
assign s: x := y end
",
        Some(Code::Unknown),
    ),
    (
        // comparison_of_three
        certified_counter!("unity 1\n", "0 <= x <= 3", "sum 1*2 1*5", "end\n"),
        Some(Code::Unexpected),
    ),
    (
        // mistakes/ampersands
        "unity 1
# `&&`, where `and` is meant
program Count
declare
  x : 0..3
initially
  x = 0
assign
  inc: x := x + 1 if x < 3 && x >= 0
end
",
        Some(Code::BadByte),
    ),
];

/// `share` up to some of its words, what stands in their place and in that of all behind them, and the code.
pub const EDITS: &[(&str, &str, Code)] = &[
    // the text ends inside a sum
    (" 1*3 1*4;", "", Code::Unexpected),
    // and with a byte that is no token
    (" 1*3 1*4;", "$", Code::BadByte),
    // the proof does not end
    ("end\ncertificates", "certificates end", Code::Unexpected),
    ("end\ncertificates", "certificates end $", Code::BadByte),
    // the section ends at once
    ("1: case", "end", Code::CertMissing),
];
