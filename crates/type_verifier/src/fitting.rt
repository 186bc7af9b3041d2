// Which types are known to fit in the locals where handlers begin (JVMS 4.10.1.6).
//
// What a frame has that satisfied its handlers fits at each of them, and so it does at those that still cover the next
// instruction. So where the same types come again, by a store or in another frame, no handler is asked about them, as
// long as none begins.
ghost use Rattle.std.specs.Prelude.{◌≡◌, ◌<◌, ◌≤◌, ◌+◌, IfOk, IsTrue, IfSome, None, Some, [], length, min};
ghost use Rattle.std.specs.Prelude.{option_copied, slice_get};
ghost use Rattle.type_verifier.specs.Walk.{satisfies_handlers};
ghost use Rattle.type_verifier.specs.bodies.Noting.{AreFitting, AreNoted, AreTold, HasNoted, IsInDoubt, IsTold};
ghost use Rattle.type_verifier.specs.bodies.Noting.{Notes, NotesWord, StillNoted};
ghost use Rattle.type_verifier.specs.bodies.Places.{ArePlaces};
ghost use Rattle.type_verifier.specs.bodies.Seen.{environment_of};

use crate::changed::Changed;
use crate::environment::Env;
use crate::frame::TypeFrame;
use crate::places::Places;
use crate::same::is_same_type;
use class_model::{Code, VType};
use jv_base::M;
use std::alloc::Global;

/// How many types are noted of a word at most.
const ROW: usize = 4;

/// Where a code has no more handlers than this, nothing is noted.
const FEW: usize = 8;

/// A type that fits in a word of the locals at each handler that covers an instruction and the one before.
#[derive(Drop)]
pub(crate) struct Noted {
    pub(crate) word: usize,
    pub(crate) ty: VType,
}

/// Such types, and how many words the locals were before the previous instruction, if there is one.
#[derive(Drop)]
pub(crate) struct Fitting {
    count: Option<usize>,
    /// `ROW` places for each word.
    noted: Vec<Option<Noted>>,
}

impl Fitting {
    /// What is known before the first instruction.
    pub(crate) fn new(alloc: Global) -> Self
        ensures count { result.count ≡ None }
        ensures noted { result.noted.items ≡ [] }
    {
        Fitting {
            count: None,
            noted: Vec::new(alloc),
        }
    }
}

// ---- what is told

/// Whether the types of a frame are noted in all words in which it may fail a handler that covers the instruction and
/// the one before.
pub(crate) fn is_told(fitting: &Fitting, frame: &TypeFrame, since: Option<Changed>) -> bool
    ensures { IsTrue result → IsTold fitting.now frame.now since }
{
    let Some(doubt) = in_doubt(fitting, frame, since) else {
        return false;
    };
    let types = frame.locals.as_slice();
    let count = types.len();
    let words = among(doubt, count);
    are_noted(fitting.noted.as_slice(), words, types)
}

/// These words, if others are known to fit: those that may have changed, or all of a frame that has as many as the one
/// before and isn't marked.
fn in_doubt(fitting: &Fitting, frame: &TypeFrame, since: Option<Changed>) -> Option<Changed>
    ensures { IfSome result (λ doubt. IsInDoubt fitting.now frame.now since doubt) }
{
    let count = frame.locals.len();
    match (since, fitting.count) {
        (Some(changed), _) => Some(changed),
        (None, Some(before)) if before == count && !frame.marked => Some(Changed {
            from: 0,
            to: count,
        }),
        _ => None,
    }
}

/// Those of these words that are among so many.
fn among(words: Changed, count: usize) -> Changed
    ensures from { result.from ≡ words.from }
    ensures to { result.to ≡ min words.to count }
{
    Changed {
        from: words.from,
        to: words.to.min(count),
    }
}

/// Whether the types in these words are noted.
fn are_noted(noted: &[Option<Noted>], words: Changed, types: &[VType]) -> bool
    requires { words.to ≤ length types.now }
    ensures { IsTrue result → AreTold noted.now words types.now }
{
    for word in words.from..words.to {
        if !is_noted(noted, word, &types[word]) {
            return false;
        }
    }
    true
}

fn is_noted(noted: &[Option<Noted>], word: usize, ty: &VType) -> bool
    ensures { IsTrue result → HasNoted noted.now word ty.now }
{
    for index in 0..ROW {
        if is_noted_at(noted, place_of(word, index), word, ty) {
            return true;
        }
    }
    false
}

/// One of the places of a word.
fn place_of(word: usize, index: usize) -> usize {
    word.saturating_mul(ROW).saturating_add(index)
}

fn is_noted_at(noted: &[Option<Noted>], place: usize, word: usize, ty: &VType) -> bool
    ensures { IsTrue result → HasNoted noted.now word ty.now }
{
    match found_at(noted, place) {
        Some(found) => found.word == word && is_same_type(&found.ty, ty),
        None => false,
    }
}

/// What is noted at a place, if that isn't free.
fn found_at(noted: &[Option<Noted>], place: usize) -> Option<&Noted>
    ensures { IfSome (option_copied result) (λ n. slice_get noted.now place ≡ Some (Some n)) }
{
    match noted.get(place) {
        Some(Some(found)) => Some(found),
        _ => None,
    }
}

// ---- what is noted

/// Goes on to the next instruction, with what a frame has that satisfies each handler.
pub(crate) fn go_on(
    env: &Env,
    places: &Places,
    fitting: &mut Fitting,
    frame: &TypeFrame,
    since: Option<Changed>,
    at: u32,
) -> M<()>
    requires places { ArePlaces env.now.code.now places.now }
    requires instruction { at < length env.now.code.now.ins }
    requires fitting { AreFitting (environment_of env.now) at fitting.old }
    requires satisfies { IsTrue (satisfies_handlers (environment_of env.now) at frame.now) }
    ensures { IfOk result (λ _. AreFitting (environment_of env.now) (at + 1) fitting.new) }
{
    let types = frame.locals.as_slice();
    let count = types.len();
    forget_begun(env, places, &mut fitting.noted, at);
    note_many(env.code, &mut fitting.noted, since, types, at as usize)?;
    fitting.count = Some(count);
    Ok(())
}

/// Forgets what is noted where a handler covers the instruction as the first one, which wasn't asked about it.
fn forget_begun(env: &Env, places: &Places, noted: &mut Vec<Option<Noted>>, at: u32)
    requires places { ArePlaces env.now.code.now places.now }
    requires instruction { at < length env.now.code.now.ins }
    requires noted { AreNoted (environment_of env.now) at noted.old.items }
    ensures { AreNoted (environment_of env.now) (at + 1) noted.new.items }
{
    if places.is_first_covered(at as usize) {
        noted.clear();
    }
}

/// Notes the types in the words that may have changed, where nothing is told of them in all words. A code with few
/// handlers needs no notes.
fn note_many(
    code: &Code,
    noted: &mut Vec<Option<Noted>>,
    since: Option<Changed>,
    types: &[VType],
    turn: usize,
) -> M<()>
    ensures { IfOk result (λ _. Notes noted.old.items noted.new.items types.now) }
{
    if code.handlers.len() <= FEW {
        return Ok(());
    }
    let words = words_of(since, types.len());
    make_room(noted, words.to)?;
    note_words(noted, words, types, turn)?;
    Ok(())
}

/// The words that may have changed, of so many.
fn words_of(since: Option<Changed>, count: usize) -> Changed
    ensures { result.to ≤ count }
{
    match since {
        Some(changed) => among(changed, count),
        None => Changed { from: 0, to: count },
    }
}

/// Makes the places of so many words.
fn make_room(noted: &mut Vec<Option<Noted>>, words: usize) -> M<()>
    ensures { IfOk result (λ _. StillNoted noted.old.items noted.new.items) }
{
    for _ in noted.len()..words.saturating_mul(ROW) {
        noted.push(None)?;
    }
    Ok(())
}

fn note_words(noted: &mut Vec<Option<Noted>>, words: Changed, types: &[VType], turn: usize) -> M<()>
    requires { words.to ≤ length types.now }
    ensures { IfOk result (λ _. Notes noted.old.items noted.new.items types.now) }
{
    for word in words.from..words.to {
        note(noted, word, &types[word], turn)?;
    }
    Ok(())
}

fn note(noted: &mut Vec<Option<Noted>>, word: usize, ty: &VType, turn: usize) -> M<()>
    ensures { IfOk result (λ _. NotesWord noted.old.items noted.new.items word ty.now) }
{
    if is_noted(noted.as_slice(), word, ty) {
        return Ok(());
    }
    let place = place_for(noted.as_slice(), word, turn);
    if noted.len() <= place {
        return Ok(());
    }
    let ty = ty.clone()?;
    noted[place] = Some(Noted { word, ty });
    Ok(())
}

/// A place for another type of a word: one that is free, else each in turn.
fn place_for(noted: &[Option<Noted>], word: usize, turn: usize) -> usize {
    for index in 0..ROW {
        let place = place_of(word, index);
        if matches!(noted.get(place), Some(None)) {
            return place;
        }
    }
    place_of(word, turn % ROW)
}
