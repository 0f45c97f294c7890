// The layer's instance over the one that helps.
ghost use Rattle.std.specs.Prelude.{◌≡◌, IfOk, Some};
ghost use Rattle.safety_rules.specs.from_rules_table.Layers as layer;

use core_terms::{CProgram, CStmt, Helper};
use safety_rules::copied_helper;
use std::alloc::{AllocError, Global};
use unity_base::Shared;

// The label of the layer's instance at the first place that has this label below; the label itself where none has.
fn label_over(fs: &[Shared<CStmt>], hs: &[Shared<CStmt>], label: u32) -> u32
    ensures { result ≡ layer.label_over fs.now hs.now label }
{
    for (place, s) in fs.iter().enumerate() {
        if place >= hs.len() {
            return label;
        }
        if s.get().label == label {
            return hs[place].get().label;
        }
    }
    label
}

// The instance over the one that a record's ensures has.
pub(crate) fn helper_over(
    alloc: Global,
    h: &CProgram,
    f: &CProgram,
    helper: &Option<Helper>,
) -> Result<Option<Helper>, AllocError>
    ensures { IfOk result (λ over. over ≡ layer.helper_over h.now f.now helper.now) }
{
    match copied_helper(alloc, helper)? {
        None => Ok(None),
        Some(x) => {
            let Helper { label, args } = x;
            let label = label_over(f.statements.as_slice(), h.statements.as_slice(), label);
            Ok(Some(Helper { label, args }))
        }
    }
}
