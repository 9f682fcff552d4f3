//! Messages in text format.

ghost use Rattle.std.specs.Prelude.{true, false, ◌≡◌, ◌∷◌, ◌++◌, ◌<◌, ◌≤◌, [], List, length, ◌↔◌, IsTrue, IfErr, IfOk, MatchOption, OnOk, map, reverse};
ghost use Rattle.protox_text_format.specs.Failure.{IfFault, IsFirst};
ghost use Rattle.protox_text_format.specs.Spelling.{AMessage, Spells, SpellsOnly, Stands, seen};
ghost use Rattle.protox_text_format.specs.inner.Marks.{Begins, NotFirst};
ghost use Rattle.protox_text_format.specs.inner.Reading.{Advances, ColonThen, GoesOn, IsOver, LeadsOn, StopsFor, close_of, open_of, place, spot};
ghost use Rattle.protox_text_format.specs.declared.item.Item.{Item};
ghost use Rattle.protox_text_format.specs.declared.reading.Frame.{Frame};

use crate::fault::{TextFailure, TextFault, TextFaultKind};
use crate::item::{Item, Piece};
use crate::marks::{Sort, behind};
use crate::names::behind_name;
use crate::scalars::behind_scalar;
use std::alloc::{AllocError, Global};

/// How many messages may stand in one another in a text.
pub const LEVELS: usize = 100;

// A message that is open.
#[derive(Clone, Copy)]
struct Frame {
    // Whether it ends with `>`, and not with `}`.
    angle: bool,
    // Whether it is a value of a list.
    in_list: bool,
}

// What is to come next.
#[derive(Clone, Copy)]
enum Turn {
    // A field, or the end of the message.
    Field,
    // What a field holds.
    Held,
    // The first value of a list, or its end.
    First,
    // A value, of a list or alone.
    Value(bool),
    // What stands behind a value, of a list or alone.
    After(bool),
}

// Where a reader stands: what is to come next, and the pieces that are left.
#[derive(Clone, Copy)]
struct Place<'t, 'a> {
    turn: Turn,
    left: &'t [Piece<'a>],
}

// Why a reader goes no further: what is wrong, and the pieces from the one on that is wrong.
#[derive(Clone, Copy)]
enum Stop<'t, 'a> {
    Wrong(&'t [Piece<'a>], TextFaultKind),
    OutOfMemory,
}

fn add<'t, 'a>(items: &mut Vec<Item<'t, 'a>>, item: Item<'t, 'a>) -> Result<(), AllocError>
    ensures { OnOk result (items.new.items ≡ items.old.items ++ item.entry ∷ []) }
{
    match items.push(item) {
        Ok(()) => Ok(()),
        Err(_) => Err(AllocError),
    }
}

fn enter(frames: &mut Vec<Frame>, frame: Frame) -> Result<(), AllocError>
    ensures { OnOk result (reverse frames.new.items ≡ frame ∷ reverse frames.old.items) }
{
    match frames.push(frame) {
        Ok(()) => Ok(()),
        Err(_) => Err(AllocError),
    }
}

fn leave(frames: &mut Vec<Frame>) -> Option<Frame>
    ensures { MatchOption result (reverse frames.old.items ≡ [])
        (λ frame. reverse frames.old.items ≡ frame ∷ reverse frames.new.items) }
{
    frames.pop()
}

// Whether there is a colon, and the pieces behind it.
fn behind_colon<'t, 'a>(left: &'t [Piece<'a>]) -> (bool, &'t [Piece<'a>])
    ensures { ColonThen left.now result.0 result.1.now }
{
    match behind(left, Sort::Mark(b':')) {
        Some(more) => (true, more),
        None => (false, left),
    }
}

// Reads the name of a field, and a colon.
fn read_name<'t, 'a>(
    left: &'t [Piece<'a>],
    items: &mut Vec<Item<'t, 'a>>,
) -> Result<Place<'t, 'a>, Stop<'t, 'a>>
    requires no_brace { NotFirst (Stands 125) left.now }
    requires no_angle { NotFirst (Stands 62) left.now }
    ensures ok { (frames : List Frame) → LeadsOn
        (place Turn.Field frames left.now items.old.items) frames items.new.items result }
    ensures err { (frames : List Frame) → GoesOn frames left.now → StopsFor
        (place Turn.Field frames left.now items.old.items) result }
{
    let more = match behind_name(left) {
        Ok(more) => more,
        Err((wrong, kind)) => return Err(Stop::Wrong(wrong, kind)),
    };
    let name = &left[..left.len() - more.len()];
    let (colon, more) = behind_colon(more);
    let Ok(()) = add(items, Item::Name(name, colon)) else {
        return Err(Stop::OutOfMemory);
    };
    Ok(Place {
        turn: Turn::Held,
        left: more,
    })
}

// The mark that ends a message.
fn end_of(angle: bool) -> u8
    ensures { result ≡ close_of angle }
{
    if angle { b'>' } else { b'}' }
}

// Reads on behind a mark that ends a message, if the innermost one ends with it.
fn read_end<'t, 'a>(
    left: &'t [Piece<'a>],
    more: &'t [Piece<'a>],
    angle: bool,
    items: &mut Vec<Item<'t, 'a>>,
    frames: &mut Vec<Frame>,
) -> Result<Place<'t, 'a>, Stop<'t, 'a>>
    requires { Begins (Stands (close_of angle)) left.now more.now }
    ensures ok { LeadsOn (spot Turn.Field frames.old.items left.now items.old.items)
        (reverse frames.new.items) items.new.items result }
    ensures err { StopsFor (spot Turn.Field frames.old.items left.now items.old.items)
        result }
{
    let Some(frame) = leave(frames) else {
        return Err(Stop::Wrong(left, TextFaultKind::NoWord));
    };
    if frame.angle != angle {
        return Err(Stop::Wrong(left, TextFaultKind::NoMark(end_of(frame.angle))));
    }
    let Ok(()) = add(items, Item::Close) else {
        return Err(Stop::OutOfMemory);
    };
    Ok(Place {
        turn: Turn::After(frame.in_list),
        left: more,
    })
}

// Reads the name of a field, or the end of a message.
fn read_field<'t, 'a>(
    left: &'t [Piece<'a>],
    items: &mut Vec<Item<'t, 'a>>,
    frames: &mut Vec<Frame>,
) -> Result<Place<'t, 'a>, Stop<'t, 'a>>
    requires { GoesOn (reverse frames.old.items) left.now }
    ensures ok { LeadsOn (spot Turn.Field frames.old.items left.now items.old.items)
        (reverse frames.new.items) items.new.items result }
    ensures err { StopsFor (spot Turn.Field frames.old.items left.now items.old.items)
        result }
{
    if let Some(more) = behind(left, Sort::Mark(b'}')) {
        return read_end(left, more, false, items, frames);
    }
    if let Some(more) = behind(left, Sort::Mark(b'>')) {
        return read_end(left, more, true, items, frames);
    }
    read_name(left, items)
}

// Reads the bracket at the front of a list, if a field holds one.
fn read_held<'t, 'a>(
    left: &'t [Piece<'a>],
    items: &mut Vec<Item<'t, 'a>>,
) -> Result<Place<'t, 'a>, Stop<'t, 'a>>
    ensures ok { (frames : List Frame) → LeadsOn
        (place Turn.Held frames left.now items.old.items) frames items.new.items result }
    ensures err { IfErr result (λ stop. stop ≡ Stop.OutOfMemory) }
{
    let Some(more) = behind(left, Sort::Mark(b'[')) else {
        return Ok(Place {
            turn: Turn::Value(false),
            left,
        });
    };
    let Ok(()) = add(items, Item::OpenList) else {
        return Err(Stop::OutOfMemory);
    };
    Ok(Place {
        turn: Turn::First,
        left: more,
    })
}

// Reads the bracket at the end of a list, if there is no value in it.
fn read_first<'t, 'a>(
    left: &'t [Piece<'a>],
    items: &mut Vec<Item<'t, 'a>>,
) -> Result<Place<'t, 'a>, Stop<'t, 'a>>
    ensures ok { (frames : List Frame) → LeadsOn
        (place Turn.First frames left.now items.old.items) frames items.new.items result }
    ensures err { IfErr result (λ stop. stop ≡ Stop.OutOfMemory) }
{
    let Some(more) = behind(left, Sort::Mark(b']')) else {
        return Ok(Place {
            turn: Turn::Value(true),
            left,
        });
    };
    let Ok(()) = add(items, Item::CloseList) else {
        return Err(Stop::OutOfMemory);
    };
    Ok(Place {
        turn: Turn::After(false),
        left: more,
    })
}

// Reads a value that is no message.
fn read_scalar<'t, 'a>(
    left: &'t [Piece<'a>],
    in_list: bool,
    items: &mut Vec<Item<'t, 'a>>,
) -> Result<Place<'t, 'a>, Stop<'t, 'a>>
    requires no_brace { NotFirst (Stands 123) left.now }
    requires no_angle { NotFirst (Stands 60) left.now }
    ensures ok { (frames : List Frame) → LeadsOn
        (place (Turn.Value in_list) frames left.now items.old.items) frames items.new.items result }
    ensures err { (frames : List Frame) → StopsFor
        (place (Turn.Value in_list) frames left.now items.old.items) result }
{
    let more = match behind_scalar(left) {
        Ok(more) => more,
        Err(wrong) => return Err(Stop::Wrong(wrong, TextFaultKind::NoValue)),
    };
    let value = &left[..left.len() - more.len()];
    let Ok(()) = add(items, Item::Scalar(value)) else {
        return Err(Stop::OutOfMemory);
    };
    Ok(Place {
        turn: Turn::After(in_list),
        left: more,
    })
}

// Whether no further message may be opened.
fn is_full(frames: &[Frame]) -> bool
    ensures { IsTrue result ↔ 100 ≤ length frames.now }
{
    frames.len() >= LEVELS
}

// Reads on behind the mark that begins a message.
fn read_open<'t, 'a>(
    left: &'t [Piece<'a>],
    more: &'t [Piece<'a>],
    frame: Frame,
    items: &mut Vec<Item<'t, 'a>>,
    frames: &mut Vec<Frame>,
) -> Result<Place<'t, 'a>, Stop<'t, 'a>>
    requires { Begins (Stands (open_of frame.angle)) left.now more.now }
    ensures ok { LeadsOn (spot (Turn.Value frame.in_list) frames.old.items left.now items.old.items)
        (reverse frames.new.items) items.new.items result }
    ensures err { StopsFor (spot (Turn.Value frame.in_list) frames.old.items left.now items.old.items)
        result }
{
    if is_full(frames) {
        return Err(Stop::Wrong(left, TextFaultKind::TooDeep));
    }
    let Ok(()) = enter(frames, frame) else {
        return Err(Stop::OutOfMemory);
    };
    let Ok(()) = add(items, Item::Open) else {
        return Err(Stop::OutOfMemory);
    };
    Ok(Place {
        turn: Turn::Field,
        left: more,
    })
}

// Reads a value, or the mark at the front of one that is a message.
fn read_value<'t, 'a>(
    left: &'t [Piece<'a>],
    in_list: bool,
    items: &mut Vec<Item<'t, 'a>>,
    frames: &mut Vec<Frame>,
) -> Result<Place<'t, 'a>, Stop<'t, 'a>>
    ensures ok { LeadsOn (spot (Turn.Value in_list) frames.old.items left.now items.old.items)
        (reverse frames.new.items) items.new.items result }
    ensures err { StopsFor (spot (Turn.Value in_list) frames.old.items left.now items.old.items)
        result }
{
    if let Some(more) = behind(left, Sort::Mark(b'{')) {
        let frame = Frame {
            angle: false,
            in_list,
        };
        return read_open(left, more, frame, items, frames);
    }
    if let Some(more) = behind(left, Sort::Mark(b'<')) {
        let frame = Frame {
            angle: true,
            in_list,
        };
        return read_open(left, more, frame, items, frames);
    }
    read_scalar(left, in_list, items)
}

// Reads what stands behind a value of a list.
fn read_next<'t, 'a>(
    left: &'t [Piece<'a>],
    items: &mut Vec<Item<'t, 'a>>,
) -> Result<Place<'t, 'a>, Stop<'t, 'a>>
    ensures ok { (frames : List Frame) → LeadsOn
        (place (Turn.After true) frames left.now items.old.items) frames items.new.items result }
    ensures err { (frames : List Frame) → StopsFor
        (place (Turn.After true) frames left.now items.old.items) result }
{
    if let Some(left) = behind(left, Sort::Mark(b',')) {
        let turn = Turn::Value(true);
        return Ok(Place { turn, left });
    }
    let Some(more) = behind(left, Sort::Mark(b']')) else {
        return Err(Stop::Wrong(left, TextFaultKind::NoMark(b',')));
    };
    let Ok(()) = add(items, Item::CloseList) else {
        return Err(Stop::OutOfMemory);
    };
    Ok(Place {
        turn: Turn::After(false),
        left: more,
    })
}

// Reads what stands behind a field. There may be a semicolon or a comma.
fn read_mark<'t, 'a>(left: &'t [Piece<'a>]) -> Place<'t, 'a>
    ensures { (frames : List Frame) (items : List Item) → Advances (place (Turn.After false) frames left.now items)
        (place result.turn frames result.left.now items) }
{
    let turn = Turn::Field;
    if let Some(left) = behind(left, Sort::Mark(b';')) {
        return Place { turn, left };
    }
    if let Some(left) = behind(left, Sort::Mark(b',')) {
        return Place { turn, left };
    }
    Place { turn, left }
}

// Reads what stands behind a value, of a list or alone.
fn read_behind<'t, 'a>(
    left: &'t [Piece<'a>],
    in_list: bool,
    items: &mut Vec<Item<'t, 'a>>,
) -> Result<Place<'t, 'a>, Stop<'t, 'a>>
    ensures ok { (frames : List Frame) → LeadsOn
        (place (Turn.After in_list) frames left.now items.old.items) frames items.new.items result }
    ensures err { (frames : List Frame) → StopsFor
        (place (Turn.After in_list) frames left.now items.old.items) result }
{
    if in_list {
        return read_next(left, items);
    }
    Ok(read_mark(left))
}

// Reads on from a place.
fn step<'t, 'a>(
    here: Place<'t, 'a>,
    items: &mut Vec<Item<'t, 'a>>,
    frames: &mut Vec<Frame>,
) -> Result<Place<'t, 'a>, Stop<'t, 'a>>
    requires { here.turn ≡ Turn.Field → GoesOn (reverse frames.old.items) here.left.now }
    ensures ok { LeadsOn (spot here.entry.turn frames.old.items here.entry.left.now items.old.items)
        (reverse frames.new.items) items.new.items result }
    ensures err { StopsFor (spot here.entry.turn frames.old.items here.entry.left.now items.old.items)
        result }
{
    match here.turn {
        Turn::Field => read_field(here.left, items, frames),
        Turn::Held => read_held(here.left, items),
        Turn::First => read_first(here.left, items),
        Turn::Value(in_list) => read_value(here.left, in_list, items, frames),
        Turn::After(in_list) => read_behind(here.left, in_list, items),
    }
}

fn is_between_fields(turn: Turn) -> bool
    ensures { IsTrue result ↔ turn ≡ Turn.Field }
{
    match turn {
        Turn::Field => true,
        _ => false,
    }
}

// Whether all is read.
fn is_over(turn: Turn, left: &[Piece<'_>], frames: &[Frame]) -> bool
    ensures { IsTrue result ↔ IsOver turn (reverse frames.now) left.now }
{
    is_between_fields(turn) && left.is_empty() && frames.is_empty()
}

/// The steps through the message that pieces of a text spell.
///
/// # Errors
/// `Fault` if they spell none, with the first piece with which no message goes on, or their number if
/// more would have to come. `OutOfMemory` where memory runs out.
pub fn read<'t, 'a>(
    alloc: Global,
    pieces: &'t [Piece<'a>],
) -> Result<Vec<Item<'t, 'a>>, TextFailure>
    ensures spelled { IfOk result (λ items. Spells AMessage 100 pieces.now (map seen items.items)) }
    ensures only { IfOk result (λ items. SpellsOnly AMessage 100 pieces.now (map seen items.items)) }
    ensures first { IfErr result (λ failure. IfFault failure (IsFirst pieces.now)) }
{
    let mut items = Vec::new(alloc);
    let mut frames = Vec::new(alloc);
    let mut turn = Turn::Field;
    let mut at = 0;
    'steps: while !is_over(turn, &pieces[at..], &frames) {
        let here = Place {
            turn,
            left: &pieces[at..],
        };
        match step(here, &mut items, &mut frames) {
            Ok(next) => {
                turn = next.turn;
                at = pieces.len() - next.left.len();
            }
            Err(Stop::Wrong(wrong, kind)) => {
                let piece = pieces.len() - wrong.len();
                return Err(TextFailure::Fault(TextFault { piece, kind }));
            }
            Err(Stop::OutOfMemory) => return Err(TextFailure::OutOfMemory),
        }
    }
    Ok(items)
}
