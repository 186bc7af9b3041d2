// The attribute Code (JVMS 4.7.3).
ghost use Rattle.std.specs.Prelude.{◌≡◌, ◌+◌, ◌^◌, ◌<◌, ◌≤◌, ◌++◌, ℕ, List, [], None, Ok, All, length, map};
ghost use Rattle.std.specs.Prelude.{slice_index, codes, IfOk, OnOk, true};
ghost use Rattle.std.specs.Int.{w16, to_be_bytes};
ghost use Rattle.std.specs.List.{flat_map};
ghost use Rattle.class_model.specs.Structure.{exception_info, attribute_info};
ghost use Rattle.class_model.specs.Frames.{stack_map_table};
ghost use Rattle.class_model.specs.LineNumbers.{line_number};
ghost use Rattle.class_model.specs.CanonicalFrames.{rows};
ghost use Rattle.class_model.specs.CanonicalClass as canonical;
ghost use Rattle.frame_write.specs.Writing.{IsOffset};

use crate::indices::class_index;
use crate::lines::line_count;
use class_model::{Handler, Ins};
use constant_table::{ConstantTable, put_u2};
use jv_base::{M, Name};
use std::alloc::Global;

/// The offset of an instruction, or the length of the code behind the last one.
fn place_at(places: &[u32], number: usize) -> u16
    requires { All IsOffset places.now }
    ensures { result ≡ slice_index places.now number }
{
    match places.get(number) {
        Some(place) => *place as u16,
        None => 0,
    }
}

// ---- handlers

/// A catch_type, which is 0 where everything is caught.
fn caught_index(alloc: Global, pool: &ConstantTable, caught: &Option<Name>) -> M<u16>
    requires { length pool.now + 1 < 2 ^ 16 }
    ensures { IfOk result (λ index. index ≡ canonical.caught_index pool.now caught.now) }
{
    match caught {
        Some(name) => class_index(alloc, pool, name),
        None => Ok(0),
    }
}

/// A row of the exception table.
fn put_handler(
    alloc: Global,
    pool: &ConstantTable,
    places: &[u32],
    handler: &Handler,
    out: &mut Vec<u8>,
) -> M<()>
    requires pool { length pool.now + 1 < 2 ^ 16 }
    requires places { All IsOffset places.now }
    ensures { OnOk result (out.new.items ≡ out.old.items
        ++ exception_info (canonical.handler_raw pool.now places.now handler.now)) }
{
    put_u2(out, place_at(places, handler.from as usize))?;
    put_u2(out, place_at(places, handler.to as usize))?;
    put_u2(out, place_at(places, handler.entry as usize))?;
    put_u2(out, caught_index(alloc, pool, &handler.caught)?)
}

/// The exception table, the count of its rows first.
pub fn put_handlers(
    alloc: Global,
    pool: &ConstantTable,
    places: &[u32],
    handlers: &[Handler],
    out: &mut Vec<u8>,
) -> M<()>
    requires pool { length pool.now + 1 < 2 ^ 16 }
    requires places { All IsOffset places.now }
    requires count { length handlers.now < 2 ^ 16 }
    ensures { let table = map (canonical.handler_raw pool.now places.now) handlers.now in OnOk result
        (out.new.items ≡ out.old.items ++ (to_be_bytes w16 (length table) ++ flat_map exception_info table)) }
{
    put_u2(out, handlers.len() as u16)?;
    for handler in handlers {
        put_handler(alloc, pool, places, handler, out)?;
    }
    Ok(())
}

// ---- lines

fn put_row(place: u16, line: u16, out: &mut Vec<u8>) -> M<()>
    ensures { OnOk result (out.new.items ≡ out.old.items ++ (to_be_bytes w16 place ++ to_be_bytes w16 line)) }
{
    put_u2(out, place)?;
    put_u2(out, line)
}

/// The row of an instruction at a place, behind one with the line before, if it has one (JVMS 4.7.12).
fn put_line_row(before: Option<u16>, place: u16, line: Option<u16>, out: &mut Vec<u8>) -> M<()>
    ensures { OnOk result (out.new.items ≡ out.old.items
        ++ flat_map line_number (canonical.line_row before place line)) }
{
    match (before, line) {
        (_, None) => Ok(()),
        (None, Some(line)) => put_row(place, line, out),
        (Some(before), Some(line)) => {
            if before == line {
                Ok(())
            } else {
                put_row(place, line, out)
            }
        }
    }
}

fn put_line_rows(places: &[u32], ins: &[Ins], out: &mut Vec<u8>) -> M<()>
    requires { All IsOffset places.now }
    ensures { OnOk result (out.new.items ≡ out.old.items
        ++ flat_map line_number (canonical.line_rows None places.now ins.now)) }
{
    let mut before = None;
    for (number, instruction) in ins.iter().enumerate() {
        put_line_row(before, place_at(places, number), instruction.line, out)?;
        before = instruction.line;
    }
    Ok(())
}

/// The contents of the LineNumberTable of a code whose instructions are at these places (JVMS 4.7.12).
pub fn line_table(alloc: Global, places: &[u32], ins: &[Ins]) -> M<Vec<u8>>
    requires places { All IsOffset places.now }
    requires count { length (canonical.line_rows None [] ins.now) < 2 ^ 16 }
    ensures table { IfOk result (λ table. table.items
        ≡ canonical.line_table [] (canonical.line_rows None places.now ins.now)) }
    ensures short { IfOk result (λ table. length table.items < 2 ^ 20) }
{
    let mut table = Vec::new(alloc);
    put_u2(&mut table, line_count(ins) as u16)?;
    put_line_rows(places, ins, &mut table)?;
    Ok(table)
}
