//! The words of a document, each with its number.

ghost use Rattle.std.specs.Prelude.{◌≡◌, ◌<◌, ◌^◌, ◌++◌, ℕ, List, length, map, IfOk, OnOk};
ghost use Rattle.std.specs.Mem.{FitsInMemory};
ghost use Rattle.names_rules.specs.Scope.{seen_keys};
ghost use Rattle.names_rules.specs.Declarations.{some_of};
ghost use Rattle.expand_declarations.specs.WordNumbers.{with_text, with_texts, word_number};

use crate::lists::first_and_rest;
use indexmap::IndexSet;
use std::alloc::{AllocError, Global};
use std::marker::Model;
use unity_base::Seq;
use unity_syntax::{Inst, Name, Param};

/// The words that were met, each once, in order of first appearance.
pub type Gathered<'a> = IndexSet<&'a [u8]>;

/// A table of words, fewer than 2^32. The number of a word is its place, from 0. Contracts see the
/// texts of the words, in order.
#[derive(Drop)]
pub struct WordTable<'a> {
    words: Gathered<'a>,
}

impl<'a> Model for WordTable<'a> {
    ghost use Rattle.std.specs.Prelude.{List, ℕ, length, ◌<◌, ◌^◌};
    ghost use Rattle.names_rules.specs.Scope.{seen_keys};

    ghost Value = { List (List ℕ) };

    ghost view = { λ t. seen_keys t.words };

    ghost invariant = { λ t. length t.words.keys < 2 ^ 32 };
}

/// What is told by one word.
pub trait Worded {
    /// The text of its word.
    ghost text: { Self → List ℕ };

    /// Its word.
    fn word(&self) -> &Name
        ensures { result.now.text ≡ text self.now };
}

impl Worded for Name {
    ghost text = { λ name. name.text };

    fn word(&self) -> &Name {
        self
    }
}

impl Worded for Inst {
    ghost text = { λ inst. inst.label.text };

    fn word(&self) -> &Name {
        &self.label
    }
}

impl Worded for Param {
    ghost text = { λ param. param.name.text };

    fn word(&self) -> &Name {
        &self.name
    }
}

/// Adds a text, where it is new.
pub fn add_text<'a>(text: &'a [u8], words: &mut Gathered<'a>) -> Result<(), AllocError>
    ensures { OnOk result (seen_keys words.new ≡ with_text (seen_keys words.old) text.now) }
{
    words.insert(text)?;
    Ok(())
}

/// Adds the text of a name, where it is new.
pub fn add_name<'a>(name: &'a Name, words: &mut Gathered<'a>) -> Result<(), AllocError>
    ensures { OnOk result (seen_keys words.new ≡ with_text (seen_keys words.old) name.now.text) }
{
    add_text(name.text.as_slice(), words)
}

/// Adds the word of each.
pub fn add_words<'a, T: Worded>(items: &'a [T], words: &mut Gathered<'a>) -> Result<(), AllocError>
    ensures { OnOk result (seen_keys words.new ≡ with_texts (seen_keys words.old) (map T.text items.now)) }
{
    for item in items {
        add_name(item.word(), words)?;
    }
    Ok(())
}

/// Adds the word of each in a list that may be left out.
pub fn add_listed<'a, T: Worded>(
    list: &'a Option<(T, Seq<T>)>,
    words: &mut Gathered<'a>,
) -> Result<(), AllocError>
    requires { FitsInMemory T.row }
    ensures { OnOk result (seen_keys words.new ≡ with_texts (seen_keys words.old) (map T.text (some_of list.now))) }
{
    let (first, rest) = first_and_rest(list);
    add_words(first, words)?;
    add_words(rest, words)
}

/// The table of these words. Fails where there are 2^32 of them, which no memory holds.
pub fn word_table<'a>(words: Gathered<'a>) -> Result<WordTable<'a>, AllocError>
    ensures { IfOk result (λ t. t ≡ seen_keys words.entry) }
{
    if words.len() > u32::MAX as usize {
        return Err(AllocError);
    }
    Ok(WordTable { words })
}

impl<'a> WordTable<'a> {
    /// The number of a word: its place in the table, or 0 where it is not there.
    pub fn number(&self, name: &Name) -> u32
        ensures { result ≡ word_number self.now name.now.text }
    {
        match self.words.get_index_of(name.text.as_slice()) {
            None => 0,
            Some(place) => place as u32,
        }
    }

    /// The texts of the words, in order.
    pub fn texts(&self, alloc: Global) -> Result<Seq<Seq<u8>>, AllocError>
        ensures { IfOk result (λ texts. texts ≡ self.now) }
    {
        let mut texts = Seq::new(alloc);
        for text in self.words.as_slice() {
            texts.push(copy_text(alloc, text)?)?;
        }
        Ok(texts)
    }
}

// An equal text.
fn copy_text(alloc: Global, text: &[u8]) -> Result<Seq<u8>, AllocError>
    ensures { IfOk result (λ copy. copy ≡ text.now) }
{
    let mut copy = Seq::new(alloc);
    for byte in text {
        copy.push(*byte)?;
    }
    Ok(copy)
}
