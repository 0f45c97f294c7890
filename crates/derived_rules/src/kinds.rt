// The kinds of two records.
ghost use Rattle.std.specs.Prelude.{◌≡◌, ◌&&◌};
ghost use Rattle.safety_rules.specs.from_rules_table.Further as further;
ghost use Rattle.safety_rules.specs.from_rules_table.Table as table;

use case_tables::Kind;
use fair_rounds::Record;
use safety_rules::{is_invariant, is_unless};

fn is_leadsto(kind: Kind) -> bool
    ensures { result ≡ further.is_leadsto kind }
{
    matches!(kind, Kind::Leadsto)
}

// Whether the first leads to something, and the second is an unless.
pub(crate) fn leads_and_keeps(a: &Record, b: &Record) -> bool
    ensures { result ≡ (further.is_leadsto a.now.kind && table.is_unless b.now.kind) }
{
    is_leadsto(a.kind) && is_unless(b.kind)
}

// Whether both lead to something.
pub(crate) fn both_lead(a: &Record, b: &Record) -> bool
    ensures { result ≡ (further.is_leadsto a.now.kind && further.is_leadsto b.now.kind) }
{
    is_leadsto(a.kind) && is_leadsto(b.kind)
}

// Whether the first is an unless, and the second leads to something.
pub(crate) fn keeps_and_leads(a: &Record, b: &Record) -> bool
    ensures { result ≡ (table.is_unless a.now.kind && further.is_leadsto b.now.kind) }
{
    is_unless(a.kind) && is_leadsto(b.kind)
}

// Whether the first is an invariant, and the second leads to something.
pub(crate) fn always_and_leads(a: &Record, b: &Record) -> bool
    ensures { result ≡ (table.is_invariant a.now.kind && further.is_leadsto b.now.kind) }
{
    is_invariant(a.kind) && is_leadsto(b.kind)
}

// Whether both are an unless.
pub(crate) fn both_keep(a: &Record, b: &Record) -> bool
    ensures { result ≡ (table.is_unless a.now.kind && table.is_unless b.now.kind) }
{
    is_unless(a.kind) && is_unless(b.kind)
}
