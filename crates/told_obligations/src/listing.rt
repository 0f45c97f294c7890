// What is left to be shown, as a text that solvers read.
ghost use Rattle.std.specs.Prelude.{
  ◌≡◌,
  ◌+◌,
  ◌^◌,
  ◌<◌,
  ◌++◌,
  [],
  ◌∷◌,
  codes,
  drop,
  slice_get,
  unwrap_or,
  OnOk,
  OnErr,
};
ghost use Rattle.std.specs.List.{flat_map};
ghost use Rattle.std.specs.Io.KnownBytes.{Appends};
ghost use Rattle.unity_base.specs.Streams.{AppendsPart, HasCause};
ghost use Rattle.schedule_replay.specs.Buffered.{IsPut};
ghost use Rattle.cli_texts.specs.Names.{kind_name};
ghost use Rattle.cli_texts.specs.Verdicts as verdict;
ghost use Rattle.core_terms.specs.declared.documents.CProof.{CProof};
ghost use Rattle.told_obligations.specs.Listing as list;
ghost use Rattle.told_obligations.specs.Following.{IsTold};

use crate::origins::{Asked, Origin};
use case_tables::Kind;
use core_terms::{CDocument, CProof, CSlot, CStep, CStmt};
use fair_rounds::Record;
use obligations::Obligation;
use proof_plans::Plan;
use schedule_replay::{Buffer, put_instance, put_number, put_word};
use solver_scripts::put_script;
use unity_base::{Failed, Seq, Sink};

/// What is told of a document: its words, variables and proofs, the record of each step, what is left to be shown with
/// the number of its step and its origin, and of each step its first byte and its line.
#[derive(Clone, Copy)]
pub struct Listing<'a> {
    pub words: &'a [Seq<u8>],
    pub slots: &'a [CSlot],
    pub proofs: &'a [CProof],
    pub records: &'a [Record],
    pub obligations: &'a [Obligation],
    pub owner: &'a [u32],
    pub origins: &'a [Origin],
    pub places: &'a [u64],
    pub lines: &'a [u64],
}

impl<'a> Listing<'a> {
    /// What is told of a document with this plan.
    pub fn new(
        document: &'a CDocument,
        plan: &'a Plan,
        origins: &'a [Origin],
        places: &'a [u64],
        lines: &'a [u64],
    ) -> Listing<'a>
        ensures { list.told_in result ≡ list.told_of document.now plan.now origins.now places.now lines.now }
    {
        Listing {
            words: document.words.as_slice(),
            slots: document.slots.as_slice(),
            proofs: document.proofs.as_slice(),
            records: plan.records.as_slice(),
            obligations: plan.obligations.as_slice(),
            owner: plan.owner.as_slice(),
            origins,
            places,
            lines,
        }
    }
}

// Puts what is asked of an instance.
fn put_asked<K: Sink>(
    text: &mut Buffer,
    out: &mut K,
    words: &[Seq<u8>],
    asked: Asked,
    statement: &CStmt,
)
    ensures { IsPut (K.written out.old) (K.written out.new) (K.faults out.old) (K.faults out.new) text.old text.new
        (list.asked_text words.now asked statement.now) }
{
    match asked {
        Asked::Defined => {
            put_instance(text, out, words, statement);
            text.put(out, b" is defined");
        }
        Asked::Keeps => {
            put_instance(text, out, words, statement);
            text.put(out, b" keeps it");
        }
        Asked::Goes => {
            text.put(out, b"after ");
            put_instance(text, out, words, statement);
            text.put(out, b" the left or the right side holds");
        }
        Asked::Helps => {
            put_instance(text, out, words, statement);
            text.put(out, b" helps");
        }
        Asked::Rests => {
            put_instance(text, out, words, statement);
            text.put(out, b" leaves the state as it is");
        }
    }
}

// Puts which invariant a union keeps.
fn put_kept<K: Sink>(text: &mut Buffer, out: &mut K, words: &[Seq<u8>], name: Option<u32>)
    ensures { IsPut (K.written out.old) (K.written out.new) (K.faults out.old) (K.faults out.new) text.old text.new
        (list.kept_text words.now name) }
{
    match name {
        None => text.put(out, b"what is used is kept by the union"),
        Some(name) => {
            put_word(text, out, words, name);
            text.put(out, b" is kept by the union");
        }
    }
}

// Puts where a layer begins.
fn put_begins<K: Sink>(text: &mut Buffer, out: &mut K, words: &[Seq<u8>], layer: u32, below: u32)
    ensures { IsPut (K.written out.old) (K.written out.new) (K.faults out.old) (K.faults out.new) text.old text.new
        (list.origin_text words.now (Origin.Begins layer below)) }
{
    put_word(text, out, words, layer);
    text.put(out, b" begins where ");
    put_word(text, out, words, below);
    text.put(out, b" may");
}

// Puts which part of its step's rule an obligation is.
fn put_origin<K: Sink>(text: &mut Buffer, out: &mut K, words: &[Seq<u8>], origin: &Origin)
    ensures { IsPut (K.written out.old) (K.written out.new) (K.faults out.old) (K.faults out.new) text.old text.new
        (list.origin_text words.now origin.now) }
{
    match origin {
        Origin::Of(asked, statement) => put_asked(text, out, words, *asked, statement.get()),
        Origin::Start => text.put(out, b"start"),
        Origin::Meant => text.put(out, b"some statement is meant"),
        Origin::Given => text.put(out, b"left side gives right side"),
        Origin::LeftSide => text.put(out, b"left side"),
        Origin::RightSide => text.put(out, b"right side"),
        Origin::Measure => text.put(out, b"the metric is in range"),
        Origin::Shown(name) => put_kept(text, out, words, *name),
        Origin::Begins(layer, below) => put_begins(text, out, words, *layer, *below),
    }
}

// Puts the origin of the obligation of this number.
fn put_origin_at<K: Sink>(text: &mut Buffer, out: &mut K, listing: &Listing, number: usize)
    ensures { IsPut (K.written out.old) (K.written out.new) (K.faults out.old) (K.faults out.new) text.old text.new
        (list.known_origin listing.now.words.now (slice_get listing.now.origins.now number)) }
{
    match listing.origins.get(number) {
        Some(origin) => put_origin(text, out, listing.words, origin),
        None => {}
    }
}

// Puts `PROGRAM.STEP`.
fn put_name<K: Sink>(text: &mut Buffer, out: &mut K, words: &[Seq<u8>], made: &Record)
    ensures { IsPut (K.written out.old) (K.written out.new) (K.faults out.old) (K.faults out.new) text.old text.new
        (list.name_text words.now made.now) }
{
    put_word(text, out, words, made.program);
    text.put(out, b".");
    put_word(text, out, words, made.name);
}

// Puts the name of a kind.
fn put_kind_name<K: Sink>(text: &mut Buffer, out: &mut K, kind: Kind)
    ensures { IsPut (K.written out.old) (K.written out.new) (K.faults out.old) (K.faults out.new) text.old text.new
        (kind_name kind) }
{
    text.put(out, kind.name().as_bytes());
}

// Puts ` KIND`, and its bound too, at a line's end.
fn put_bounded<K: Sink>(text: &mut Buffer, out: &mut K, kind: Kind, bound: u64)
    ensures { IsPut (K.written out.old) (K.written out.new) (K.faults out.old) (K.faults out.new) text.old text.new
        (verdict.bounded_text kind bound) }
{
    text.put(out, b" ");
    put_kind_name(text, out, kind);
    text.put(out, b" ");
    put_number(text, out, bound);
    text.put(out, b"\n");
}

// Puts ` KIND`, at a line's end.
fn put_unbounded<K: Sink>(text: &mut Buffer, out: &mut K, kind: Kind)
    ensures { IsPut (K.written out.old) (K.written out.new) (K.faults out.old) (K.faults out.new) text.old text.new
        (codes " " ++ (kind_name kind ++ 10 ∷ [])) }
{
    text.put(out, b" ");
    put_kind_name(text, out, kind);
    text.put(out, b"\n");
}

// Puts ` KIND`, and its bound too where it leads to something, at a line's end.
fn put_kind<K: Sink>(text: &mut Buffer, out: &mut K, kind: Kind, bound: u64)
    ensures { IsPut (K.written out.old) (K.written out.new) (K.faults out.old) (K.faults out.new) text.old text.new
        (verdict.kind_text kind bound) }
{
    match kind {
        Kind::Leadsto | Kind::Until | Kind::Detects => put_bounded(text, out, kind, bound),
        _ => put_unbounded(text, out, kind),
    }
}

// The number at a place; 0 where there is none.
fn number_at(numbers: &[u64], place: usize) -> u64
    ensures { result ≡ unwrap_or (slice_get numbers.now place) 0 }
{
    numbers.get(place).copied().unwrap_or(0)
}

// Puts the line of the step of this number.
fn put_step_line<K: Sink>(
    text: &mut Buffer,
    out: &mut K,
    listing: &Listing,
    number: usize,
    made: &Record,
)
    ensures { IsPut (K.written out.old) (K.written out.new) (K.faults out.old) (K.faults out.new) text.old text.new
        (list.step_line (list.told_in listing.now) number made.now) }
{
    text.put(out, b"; step ");
    put_name(text, out, listing.words, made);
    text.put(out, b" byte ");
    put_number(text, out, number_at(listing.places, number));
    text.put(out, b" line ");
    put_number(text, out, number_at(listing.lines, number));
    put_kind(text, out, made.kind, made.bound);
}

// Puts the line of the obligation of this number.
fn put_obligation_line<K: Sink>(
    text: &mut Buffer,
    out: &mut K,
    listing: &Listing,
    made: &Record,
    number: usize,
)
    requires { number + 1 < 2 ^ 64 }
    ensures { IsPut (K.written out.old) (K.written out.new) (K.faults out.old) (K.faults out.new) text.old text.new
        (list.obligation_line (list.told_in listing.now) made.now number) }
{
    text.put(out, b"; obligation ");
    put_number(text, out, number as u64 + 1);
    text.put(out, b" ");
    put_name(text, out, listing.words, made);
    text.put(out, b" ");
    put_origin_at(text, out, listing, number);
    text.put(out, b"\n");
}

// Puts an obligation.
fn put_known<K: Sink>(
    text: &mut Buffer,
    out: &mut K,
    listing: &Listing,
    made: &Record,
    params: &[u32],
    number: usize,
    obligation: &Obligation,
)
    requires { number + 1 < 2 ^ 64 }
    ensures { IsPut (K.written out.old) (K.written out.new) (K.faults out.old) (K.faults out.new) text.old text.new
        (list.known_text (list.told_in listing.now) made.now params.now number obligation.now) }
{
    put_obligation_line(text, out, listing, made, number);
    put_script(text, out, listing.words, listing.slots, params, obligation);
}

// Puts the obligation of this number.
fn put_obligation<K: Sink>(
    text: &mut Buffer,
    out: &mut K,
    listing: &Listing,
    made: &Record,
    params: &[u32],
    number: usize,
)
    requires { number + 1 < 2 ^ 64 }
    ensures { IsPut (K.written out.old) (K.written out.new) (K.faults out.old) (K.faults out.new) text.old text.new
        (list.obligation_text (list.told_in listing.now) made.now params.now number) }
{
    match listing.obligations.get(number) {
        Some(obligation) => put_known(text, out, listing, made, params, number, obligation),
        None => {}
    }
}

// Puts the obligations of the step of this number, from the number of the first on, and gives that of the next.
fn put_own<K: Sink>(
    text: &mut Buffer,
    out: &mut K,
    listing: &Listing,
    made: &Record,
    step: usize,
    params: &[u32],
    first: usize,
) -> usize
    ensures next { result ≡ first + list.own step (drop first listing.now.owner.now) }
    ensures put { IsPut (K.written out.old) (K.written out.new) (K.faults out.old) (K.faults out.new) text.old text.new
        (list.obligations_from (list.told_in listing.now) made.now params.now first
        (list.own step (drop first listing.now.owner.now))) }
{
    let mut next = first;
    while next < listing.owner.len() && listing.owner[next] as usize == step {
        put_obligation(text, out, listing, made, params, next);
        next += 1;
    }
    next
}

// The numbers of a step and of an obligation, from 0.
#[derive(Clone, Copy, Debug, PartialEq, Eq)]
pub(crate) struct At {
    pub(crate) step: usize,
    pub(crate) obligation: usize,
}

// Puts the step of this number and its obligations, and gives the numbers of the next.
fn put_step<K: Sink>(text: &mut Buffer, out: &mut K, listing: &Listing, step: &CStep, at: At) -> At
    ensures { IsTold (list.told_in listing.now) at result (step.now ∷ [])
        (K.written out.old) (K.written out.new) (K.faults out.old) (K.faults out.new) text.old text.new }
{
    match listing.records.get(at.step) {
        Some(made) => {
            put_step_line(text, out, listing, at.step, made);
            let params = step.param_names.as_slice();
            let next = put_own(text, out, listing, made, at.step, params, at.obligation);
            At {
                step: at.step + 1,
                obligation: next,
            }
        }
        None => at,
    }
}

// Puts the steps of a proof.
fn put_steps<K: Sink>(
    text: &mut Buffer,
    out: &mut K,
    listing: &Listing,
    steps: &[CStep],
    from: At,
) -> At
    ensures { IsTold (list.told_in listing.now) from result steps.now
        (K.written out.old) (K.written out.new) (K.faults out.old) (K.faults out.new) text.old text.new }
{
    let mut at = from;
    for step in steps {
        at = put_step(text, out, listing, step, at);
    }
    at
}

// Puts the steps of proofs.
fn put_proofs<K: Sink>(
    text: &mut Buffer,
    out: &mut K,
    listing: &Listing,
    proofs: &[CProof],
    from: At,
) -> At
    ensures { IsTold (list.told_in listing.now) from result (flat_map (λ (p : CProof). p.steps) proofs.now)
        (K.written out.old) (K.written out.new) (K.faults out.old) (K.faults out.new) text.old text.new }
{
    let mut at = from;
    for proof in proofs {
        at = put_steps(text, out, listing, proof.steps.as_slice(), at);
    }
    at
}

// Puts how many steps and obligations there are, and the logic of the scripts.
fn put_first<K: Sink>(text: &mut Buffer, out: &mut K, listing: &Listing)
    ensures { IsPut (K.written out.old) (K.written out.new) (K.faults out.old) (K.faults out.new) text.old text.new
        (list.first_lines (list.told_in listing.now)) }
{
    text.put(out, b"; unity obligations: ");
    put_number(text, out, listing.records.len() as u64);
    text.put(out, b" steps ");
    put_number(text, out, listing.obligations.len() as u64);
    text.put(out, b" obligations\n(set-logic ALL)\n");
}

// Puts the whole text.
fn put_all<K: Sink>(text: &mut Buffer, out: &mut K, listing: &Listing)
    ensures { IsPut (K.written out.old) (K.written out.new) (K.faults out.old) (K.faults out.new) text.old text.new
        (list.obligations_text (list.told_in listing.now)) }
{
    put_first(text, out, listing);
    let first = At {
        step: 0,
        obligation: 0,
    };
    let _ = put_proofs(text, out, listing, listing.proofs, first);
}

/// Writes what is left to be shown for the steps of a document: a script in SMT-LIB's language, version 2.6, in which
/// a line says of each obligation where it comes from. It takes no memory.
///
/// `Failed` comes only where the sink's count of faults rose, and then a proper prefix of the text was appended.
pub fn write_obligations<K: Sink>(listing: &Listing, out: &mut K) -> Result<(), Failed>
    ensures whole { OnOk result (Appends (K.written out.old) (K.written out.new)
        (list.obligations_text (list.told_in listing.now))) }
    ensures part { OnErr result (AppendsPart (K.written out.old) (K.written out.new)
        (list.obligations_text (list.told_in listing.now))) }
    ensures cause { HasCause (K.faults out.old) (K.faults out.new) result }
{
    let mut text = Buffer::new();
    put_all(&mut text, out, listing);
    text.finish(out)
}
