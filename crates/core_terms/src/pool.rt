// Trees under numbers: equal trees have one number.
ghost use Rattle.std.specs.Prelude.{◌≡◌, ◌<◌, ◌^◌, [], min, length, take, Some, slice_get, IfOk};
ghost use Rattle.core_terms.specs.declared.trees.CForm.{CForm};
ghost use Rattle.core_terms.specs.Sizes.{form_nodes};

use crate::copies::copy_form;
use crate::marks::Mark;
use crate::nodes::{FormId, FormNode, TermId, TermNode};
use crate::tables::Tables;
use crate::trees::{CForm, CTerm};
use crate::{interning, placing};
use indexmap::IndexSet;
use std::alloc::{AllocError, Global};
use std::marker::Model;
use unity_base::Seq;

/// Trees under numbers. Equal trees have one number, and share their parts.
#[derive(Drop)]
pub struct Pool {
    tables: Tables,
}

impl Model for Pool {
    ghost use Rattle.std.specs.Coded.{codes};
    ghost use Rattle.core_terms.specs.contracts.trees.CForm as form;
    ghost use Rattle.core_terms.specs.contracts.trees.CTerm as term;
    ghost use Rattle.core_terms.specs.Pools.{Pooled, pooled, IsPool};

    ghost Value = { Pooled };

    ghost coded = { Prim.hlevel (codes, form.the_row.coded, term.the_row.coded) };

    ghost view = { λ p. pooled p.tables };

    ghost invariant = { λ p. IsPool (pooled p.tables) };
}

impl Pool {
    ghost use Rattle.core_terms.specs.declared.marks.Mark.{Mark};
    ghost use Rattle.core_terms.specs.Pools.{IsOnce, Grows, form_of_node, term_of_node, IsFormWithin, IsTermWithin};
    ghost use Rattle.core_terms.specs.Marks.{Fits, KeepsMarks, KeepsMarksTo};

    /// The empty pool. It takes no memory.
    pub fn new(alloc: Global) -> Pool
        ensures forms { result.forms ≡ [] }
        ensures terms { result.terms ≡ [] }
    {
        Pool {
            tables: Tables {
                alloc,
                form_nodes: IndexSet::new(alloc),
                forms: Seq::new(alloc),
                term_nodes: IndexSet::new(alloc),
                terms: Seq::new(alloc),
            },
        }
    }

    /// The number of a formula, which is put into the pool where it has none.
    ///
    /// An error says that memory was refused. Each number given before keeps its tree, whatever is answered.
    pub fn put_form(&mut self, f: &CForm) -> Result<FormId, AllocError>
        ensures tree { IfOk result (λ id. slice_get self.new.forms id.place ≡ Some f.now) }
        ensures kept { Grows self.old self.new }
        ensures marks { KeepsMarks self.old self.new }
    {
        interning::put_form(&mut self.tables, f)
    }

    /// The number of a term, which is put into the pool where it has none.
    ///
    /// An error says that memory was refused. Each number given before keeps its tree, whatever is answered.
    pub fn put_term(&mut self, t: &CTerm) -> Result<TermId, AllocError>
        ensures tree { IfOk result (λ id. slice_get self.new.terms id.place ≡ Some t.now) }
        ensures kept { Grows self.old self.new }
        ensures marks { KeepsMarks self.old self.new }
    {
        interning::put_term(&mut self.tables, t)
    }

    /// The node of a formula's number: the formula is what the node is made of, and a mark that fits below which the
    /// formula stands has the node's parts below it too.
    pub fn form_node(&self, id: FormId) -> FormNode
        requires { id.place < length self.now.forms }
        ensures tree { slice_get self.now.forms id.place ≡
            Some (form_of_node self.now.forms self.now.terms result) }
        ensures parts { (mark : Mark) → Fits self.now mark → id.place < mark.forms →
            IsFormWithin mark.forms mark.terms result }
    {
        form_node_at(&self.tables.form_nodes, id.place)
    }

    /// The node of a term's number, with what `form_node` says of a formula's.
    pub fn term_node(&self, id: TermId) -> TermNode
        requires { id.place < length self.now.terms }
        ensures tree { slice_get self.now.terms id.place ≡
            Some (term_of_node self.now.forms self.now.terms result) }
        ensures parts { (mark : Mark) → Fits self.now mark → id.place < mark.terms →
            IsTermWithin mark.forms mark.terms result }
    {
        term_node_at(&self.tables.term_nodes, id.place)
    }

    /// The number of the formula that a node is, which is put into the pool where it has none.
    ///
    /// An error says that memory was refused. Each number given before keeps its tree, whatever is answered.
    pub fn put_form_node(&mut self, node: FormNode) -> Result<FormId, AllocError>
        requires { IsFormWithin (length self.old.forms) (length self.old.terms) node }
        ensures tree { IfOk result (λ id. slice_get self.new.forms id.place ≡
            Some (form_of_node self.old.forms self.old.terms node)) }
        ensures kept { Grows self.old self.new }
        ensures marks { KeepsMarks self.old self.new }
    {
        placing::place_form(&mut self.tables, node)
    }

    /// The number of the term that a node is, which is put into the pool where it has none.
    ///
    /// An error says that memory was refused. Each number given before keeps its tree, whatever is answered.
    pub fn put_term_node(&mut self, node: TermNode) -> Result<TermId, AllocError>
        requires { IsTermWithin (length self.old.forms) (length self.old.terms) node }
        ensures tree { IfOk result (λ id. slice_get self.new.terms id.place ≡
            Some (term_of_node self.old.forms self.old.terms node)) }
        ensures kept { Grows self.old self.new }
        ensures marks { KeepsMarks self.old self.new }
    {
        placing::place_term(&mut self.tables, node)
    }

    /// The formula of a number. It shares its parts with the pool.
    ///
    /// An error says that memory was refused.
    pub fn form(&self, id: FormId) -> Result<CForm, AllocError>
        requires { id.place < length self.now.forms }
        ensures { IfOk result (λ f. slice_get self.now.forms id.place ≡ Some f) }
    {
        copy_form(
            self.tables.alloc,
            self.tables.forms.as_slice()[id.place].tree.get(),
        )
    }

    /// The size of a number's formula, or 2^63 where it is more.
    pub fn form_size(&self, id: FormId) -> u64
        requires { id.place < length self.now.forms }
        ensures { (f : CForm) → slice_get self.now.forms id.place ≡ Some f → result ≡ min (form_nodes f) (2 ^ 63) }
    {
        self.tables.forms.as_slice()[id.place].size
    }

    /// What the pool holds now.
    pub fn mark(&self) -> Mark
        ensures forms { result.forms ≡ length self.now.forms }
        ensures terms { result.terms ≡ length self.now.terms }
        ensures fits { Fits self.now result }
    {
        Mark {
            forms: self.tables.forms.len(),
            terms: self.tables.terms.len(),
        }
    }

    /// Forgets what was put into the pool since the mark.
    pub fn forget(&mut self, mark: Mark)
        requires { Fits self.old mark }
        ensures forms { self.new.forms ≡ take mark.forms self.old.forms }
        ensures terms { self.new.terms ≡ take mark.terms self.old.terms }
        ensures marks { KeepsMarksTo mark self.old self.new }
    {
        self.tables.form_nodes.truncate(mark.forms);
        self.tables.forms.truncate(mark.forms);
        self.tables.term_nodes.truncate(mark.terms);
        self.tables.terms.truncate(mark.terms);
    }

    /// No formula and no term of the pool has two numbers.
    pub fn has_each_once(&self)
        ensures forms { IsOnce self.now.forms }
        ensures terms { IsOnce self.now.terms }
    {
        let _tables = &self.tables;
    }
}

fn form_node_at(nodes: &IndexSet<FormNode>, place: usize) -> FormNode
    requires { place < length nodes.now.keys }
    ensures { slice_get nodes.now.keys place ≡ Some result }
{
    nodes.as_slice()[place]
}

fn term_node_at(nodes: &IndexSet<TermNode>, place: usize) -> TermNode
    requires { place < length nodes.now.keys }
    ensures { slice_get nodes.now.keys place ≡ Some result }
{
    nodes.as_slice()[place]
}
