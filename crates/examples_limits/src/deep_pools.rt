// The deepest trees of 65,536 nodes, put into a pool and got back. A call that took too much stack would end the test;
// that it answers rightly is proved.
use crate::deep_trees::deep_trees;
use core_terms::{CForm, Pool, same, size_of};
use std::alloc::{AllocError, Global};
use std::test::Fail;

// The formula as a pool hands it back, which stands when the pool has forgotten it; none where the pool gives it two
// numbers, or says that it has other than its nodes.
#[tactic(auto, using(core_terms::proofs::PoolLaws::grown))]
fn handed_back(pool: &mut Pool, f: &CForm) -> Result<Option<CForm>, AllocError> {
    let empty = pool.mark();
    let id = pool.put_form(f)?;
    let size = pool.form_size(id);
    let back = pool.form(id)?;
    let again = pool.put_form(&back)?;
    pool.forget(empty);
    if id == again && size == size_of(f) {
        Ok(Some(back))
    } else {
        Ok(None)
    }
}

// The same of a pool that is gone then.
fn handed_back_once(alloc: Global, f: &CForm) -> Result<Option<CForm>, AllocError> {
    let mut pool = Pool::new(alloc);
    handed_back(&mut pool, f)
}

// Whether a pool hands back an equal formula.
fn comes_back(alloc: Global, f: &CForm) -> Result<bool, AllocError> {
    match handed_back_once(alloc, f)? {
        Some(back) => Ok(same(f, &back)),
        None => Ok(false),
    }
}

#[test]
fn keeps_deep_trees(rt: HostRuntime) -> Result<(), Fail> {
    let forms = deep_trees(rt.alloc())?;
    for f in forms.as_slice() {
        assert!(rt; comes_back(rt.alloc(), f)?);
    }
    Ok(())
}
