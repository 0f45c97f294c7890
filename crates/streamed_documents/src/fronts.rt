//! A front, and from it what the whole text is.
ghost use Rattle.std.specs.Prelude.{◌≡◌, ◌⊎◌, ◌^◌, ◌≤◌, if◌then◌else◌, ℕ, List, [], Some, None, IfOk, OnOk};
ghost use Rattle.std.specs.Prelude.{IsErrOf};
ghost use Rattle.std.specs.Io.KnownBytes.{IsAtEnd};
ghost use Rattle.unity_base.specs.Streams.{IsTold};
ghost use Rattle.unity_base.specs.Window.{held, window_at, window_limit, HasPassed};
ghost use Rattle.unity_syntax.specs.declared.document.Document.{Document};
ghost use Rattle.unity_lexer.specs.declared.front.Front.{Front};
ghost use Rattle.front_documents.specs.Laws.{IsFrontDocument};
ghost use Rattle.streamed_documents.specs.declared.fronts.Listener.{Listener};
ghost use Rattle.streamed_documents.specs.Fronts.{HasFront, IsOrderly, IsOpening, MayGoOn, section_version};
ghost use Rattle.streamed_documents.specs.Fronts.{IsPassage, IsPassageFor};
ghost use Rattle.streamed_documents.specs.Hearing.{IsPendingOn, IsReadyFor, MayHear};
ghost use Rattle.streamed_documents.specs.Rests.{IsOut};

use crate::behind::{Pending, read_behind};
use crate::cores::core_of;
use crate::found::{Flaw, ReadDocument, SourceStop};
use crate::places::step_places;
use crate::rests::skimmed;
use case_tables::Code;
use event_judge::Judge;
use names_rules::NameFault;
use std::alloc::{AllocError, Global};
use unity_base::{Held, Source, Window};
use unity_lexer::Front;
use unity_parser::{parse_front, says_later};
use unity_syntax::{Document, SyntaxFault};

/// Whom the certificates of a document are told to.
#[derive(Clone, Copy, Debug, PartialEq, Eq)]
pub(crate) enum Listener {
    /// A judge.
    Judge,
    /// Nobody: they are only read.
    Nobody,
}

/// What is found of a text that was read to its end.
#[derive(Drop)]
pub(crate) enum Passage {
    /// More bytes than the limit, or a fault of the text itself.
    Refused(Flaw),
    /// A document, and what is pending on it.
    Passed(Pending),
}

/// What is found of a front.
#[derive(Drop)]
pub(crate) enum Opened {
    /// Its first fault.
    Fault {
        /// What is at fault.
        code: Code,
        /// The place, in bytes from 0.
        at: u64,
    },
    /// The document that it is.
    Document {
        /// The version of the section that follows, where one does.
        version: Option<u64>,
        /// What is answered where nothing that follows is at fault.
        pending: Pending,
    },
}

fn version_of(later: bool) -> u64
    ensures { result ≡ if later then 2 else 1 }
{
    if later { 2 } else { 1 }
}

/// The version of the section behind a front, where there is one.
fn section_version(front: &Front) -> Option<u64>
    ensures { result ≡ section_version front.now }
{
    match front.cut {
        Some(_) => Some(version_of(says_later(front.tokens.as_slice()))),
        None => None,
    }
}

/// What is pending on a document, which is let go.
fn pending_on(
    alloc: Global,
    front: &Front,
    document: Document,
    listener: Listener,
) -> Result<Pending, AllocError>
    requires orderly { (place : ℕ) × (place ≤ 2 ^ 29) × IsOrderly place front.now }
    requires read { IsFrontDocument front.now document }
    ensures pending { IfOk result (IsPendingOn front.now.cut [] document) }
    ensures ready { IfOk result (IsReadyFor listener) }
{
    match core_of(alloc, &document) {
        Ok(core) => match listener {
            Listener::Judge => {
                let judge = Judge::new(alloc, core.get())?;
                Ok(Pending::Judge { core, judge })
            }
            Listener::Nobody => {
                let places = step_places(alloc, &document)?;
                let read = ReadDocument {
                    core: core.into_inner(),
                    number_at: document.number_at,
                    section_at: front.cut,
                    places,
                };
                Ok(Pending::Document(Held::new(alloc, read)?))
            }
        },
        Err(NameFault::Fault { code, at }) => Ok(Pending::Fault { code, at }),
        Err(NameFault::Memory) => Err(AllocError),
    }
}

/// What is found of a front, which is let go.
fn open_front(alloc: Global, front: Front, listener: Listener) -> Result<Opened, AllocError>
    requires { (place : ℕ) × (place ≤ 2 ^ 29) × IsOrderly place front }
    ensures opened { IfOk result (IsOpening front) }
    ensures ready { IfOk result (MayGoOn listener) }
{
    match parse_front(alloc, &front) {
        Ok(document) => {
            let version = section_version(&front);
            let pending = pending_on(alloc, &front, document, listener)?;
            Ok(Opened::Document { version, pending })
        }
        Err(SyntaxFault::Fault { code, at }) => Ok(Opened::Fault { code, at }),
        Err(SyntaxFault::Memory) => Err(AllocError),
    }
}

/// What is found of a document by what stands behind its front.
fn pass_behind<S: Source>(
    w: &mut Window,
    src: &mut S,
    version: Option<u64>,
    pending: Pending,
) -> Result<Passage, SourceStop>
    requires version { (v : ℕ) → version ≡ Some v → (v ≡ 1) ⊎ (v ≡ 2) }
    requires none { version ≡ None → (held w.old ≡ []) × IsAtEnd (S.left src.old) }
    requires ready { MayHear pending }
    ensures found { IfOk result (λ found. (bytes : List ℕ) (f : Front) (d : Document) →
        HasFront w.old (S.left src.old) bytes f → version ≡ section_version f → IsFrontDocument f d →
        IsPendingOn f.cut [] d pending → IsPassage (window_limit w.old) bytes found) }
    ensures ready { IfOk result (λ found. (listener : Listener) → IsReadyFor listener pending →
        IsPassageFor listener found) }
    ensures end { OnOk result (IsOut w.old (S.left src.old) w.new (S.left src.new)) }
    ensures passed { HasPassed w.old w.new (S.left src.old) (S.left src.new) }
    ensures cause { IsTold (S.faults src.old) (S.faults src.new) (IsErrOf result SourceStop.Failed) }
{
    let mut pending = pending;
    match read_behind(w, src, version, &mut pending)? {
        Some(flaw) => Ok(Passage::Refused(flaw)),
        None => Ok(Passage::Passed(pending)),
    }
}

/// What is found of a text whose front was read, and of which the rest is still to come.
pub(crate) fn pass_front<S: Source>(
    alloc: Global,
    w: &mut Window,
    src: &mut S,
    front: Front,
    listener: Listener,
) -> Result<Passage, SourceStop>
    requires orderly { IsOrderly (window_at w.old) front }
    requires limit { window_limit w.old ≤ 2 ^ 29 }
    requires none { front.cut ≡ None → (held w.old ≡ []) × IsAtEnd (S.left src.old) }
    ensures found { IfOk result (λ found. (bytes : List ℕ) → HasFront w.old (S.left src.old) bytes front →
        IsPassage (window_limit w.old) bytes found) }
    ensures ready { IfOk result (IsPassageFor listener) }
    ensures end { OnOk result (IsOut w.old (S.left src.old) w.new (S.left src.new)) }
    ensures passed { HasPassed w.old w.new (S.left src.old) (S.left src.new) }
    ensures cause { IsTold (S.faults src.old) (S.faults src.new) (IsErrOf result SourceStop.Failed) }
{
    match open_front(alloc, front, listener)? {
        Opened::Fault { code, at } => Ok(Passage::Refused(skimmed(w, src, code, at)?)),
        Opened::Document { version, pending } => pass_behind(w, src, version, pending),
    }
}
