//! The disassembler for programs in C: sets of dumps behind a handle, and the texts of their runs.
//!
//! Each function takes a set that C holds, does one thing, and answers a code: 0, or the number of a `Fault`, and then
//! the set is as it was. C owes what the types say: a set that it made of zeros and that no other call has meanwhile,
//! bytes that are there while the call runs, and no null in place of either. `library/acpidis.c` sees to the nulls.
#![tactic(auto)]

mod code;
mod contents;
mod dump;
mod handle;
mod looking;
mod noting;
mod parts;
mod state;
mod step;
mod told;
mod values;

ghost use Rattle.std.specs.Prelude.{◌≡◌, Some, None, cond};
ghost use Rattle.acpidis_c.specs.Reads.{told_in, sizes_in, texts_of, Copies, CopiesItems};
ghost use Rattle.acpidis_c.specs.Sets.{state_of, CallsBy, CallsAt, Opens};
ghost use Rattle.acpidis_c.specs.States.{HasCounts, HasListed, HasRun, RefusesCounts, RefusesListed, IsNoMemory};
ghost use Rattle.acpidis_c.specs.Steps.{Adds, Chooses, RefusesAdd};

use code::{Fault, code_of, line_of};
use contents::{BodyValue, MethodValue, RowValue};
use handle::Set;
use looking::{Bodies, Methods, Rows, Sizes, Tables, Texts, copy_items, no_sizes, sizes_of};
use state::{Flags, State};
use std::alloc::Global;
use step::{Add, Count, List, Run, call};
use told::{Told, copy_of, nothing_told, told_of};

/// Opens a closed set, without dumps and options.
#[unsafe(no_mangle)]
pub extern "C" fn acpidis_c_open(alloc: Global, set: &mut Set) -> u32
    ensures { Opens (state_of set.old) result (state_of set.new) }
{
    if set.is_open() {
        return Fault::Open.number();
    }
    match Box::new(alloc, State::new(alloc)) {
        Ok(state) => {
            set.put(state);
            0
        }
        Err(_) => Fault::NoMemory.number(),
    }
}

/// Closes a set, and lets go all that it has. A closed one stays closed.
#[unsafe(no_mangle)]
pub extern "C" fn acpidis_c_close(alloc: Global, set: &mut Set)
    ensures { state_of set.new ≡ None }
{
    let _ = set.take(alloc);
}

/// Adds a dump behind the others: its name, its address if it is known, and its bytes, of which the set has copies.
#[unsafe(no_mangle)]
pub extern "C" fn acpidis_c_add(
    alloc: Global,
    set: &mut Set,
    name: &[u8],
    placed: bool,
    address: u64,
    bytes: &[u8],
) -> u32
    ensures { CallsBy (Adds name.now (cond placed (Some address) None) bytes.now) (RefusesAdd name.now)
        (state_of set.old) result (state_of set.new) }
{
    let address = if placed { Some(address) } else { None };
    let add = Add {
        name,
        address,
        bytes,
    };
    code_of(&call(alloc, set, add))
}

/// Sets what is taken that is refused else.
#[unsafe(no_mangle)]
pub extern "C" fn acpidis_c_options(
    alloc: Global,
    set: &mut Set,
    any_sum: bool,
    any_run: bool,
    unknown_zero: bool,
) -> u32
    ensures { CallsBy (Chooses any_sum any_run unknown_zero) (λ _ _. ⊥) (state_of set.old) result (state_of set.new) }
{
    let flags = Flags {
        any_sum,
        any_run,
        unknown_zero,
    };
    code_of(&call(alloc, set, flags))
}

/// Sets the argument counts that the user gives, by the text of a file of them. `line` gets the line at fault, or 0.
#[unsafe(no_mangle)]
pub extern "C" fn acpidis_c_counts(
    alloc: Global,
    set: &mut Set,
    text: &[u8],
    line: &mut usize,
) -> u32
    ensures { CallsAt (λ before. HasCounts before text.now) (λ _. RefusesCounts text.now)
        (state_of set.old) result line.new (state_of set.new) }
{
    let ended = call(alloc, set, Count { text });
    *line = line_of(&ended);
    code_of(&ended)
}

/// Runs the set: the text of its listing, or with `check` a line for each table, and its error lines.
#[unsafe(no_mangle)]
pub extern "C" fn acpidis_c_run(alloc: Global, set: &mut Set, check: bool) -> u32
    ensures { CallsBy (λ before. HasRun before check) (λ _. IsNoMemory) (state_of set.old) result (state_of set.new) }
{
    code_of(&call(alloc, set, Run { check }))
}

/// What came of the last run of a set.
#[unsafe(no_mangle)]
pub extern "C" fn acpidis_c_told(alloc: Global, set: &mut Set) -> Told
    ensures told { result ≡ told_in (state_of set.old) }
    ensures same { state_of set.new ≡ state_of set.old }
{
    let Some(state) = set.take(alloc) else {
        return nothing_told(Fault::Closed);
    };
    let told = told_of(&state);
    set.put(state);
    told
}

/// Copies bytes of the text of the last run from one on, or with `errors` of its error lines.
#[unsafe(no_mangle)]
pub extern "C" fn acpidis_c_copy(
    alloc: Global,
    set: &mut Set,
    errors: bool,
    from: usize,
    out: &mut [u8],
) -> u32
    ensures copied { Copies (state_of set.old) errors from out.old out.new result }
    ensures same { state_of set.new ≡ state_of set.old }
{
    let Some(state) = set.take(alloc) else {
        return Fault::Closed.number();
    };
    let code = code_of(&copy_of(&state, errors, from, out));
    set.put(state);
    code
}

/// Tells what the set has: its tables, the rows of its namespace, its methods, and with `bodies` the bodies of these.
#[unsafe(no_mangle)]
pub extern "C" fn acpidis_c_list(alloc: Global, set: &mut Set, bodies: bool) -> u32
    ensures { CallsBy (λ before. HasListed before bodies) RefusesListed (state_of set.old) result (state_of set.new) }
{
    code_of(&call(alloc, set, List { bodies }))
}

/// How many values there are of what was told last, and how many bytes their texts have.
#[unsafe(no_mangle)]
pub extern "C" fn acpidis_c_sizes(alloc: Global, set: &mut Set) -> Sizes
    ensures sizes { result ≡ sizes_in (state_of set.old) }
    ensures same { state_of set.new ≡ state_of set.old }
{
    let Some(state) = set.take(alloc) else {
        return no_sizes(Fault::Closed);
    };
    let sizes = sizes_of(&state);
    set.put(state);
    sizes
}

/// Copies the indexes of the dumps of the set's tables, in load order, from one on.
#[unsafe(no_mangle)]
pub extern "C" fn acpidis_c_tables(
    alloc: Global,
    set: &mut Set,
    from: usize,
    out: &mut [usize],
) -> u32
    ensures copied { CopiesItems (λ x. x.tables.items) (state_of set.old) from out.old out.new result }
    ensures same { state_of set.new ≡ state_of set.old }
{
    copy_items(alloc, set, Tables, from, out)
}

/// Copies rows of the namespace from one on.
#[unsafe(no_mangle)]
pub extern "C" fn acpidis_c_rows(
    alloc: Global,
    set: &mut Set,
    from: usize,
    out: &mut [RowValue],
) -> u32
    ensures copied { CopiesItems (λ x. x.rows.items.items) (state_of set.old) from out.old out.new result }
    ensures same { state_of set.new ≡ state_of set.old }
{
    copy_items(alloc, set, Rows, from, out)
}

/// Copies methods from one on.
#[unsafe(no_mangle)]
pub extern "C" fn acpidis_c_methods(
    alloc: Global,
    set: &mut Set,
    from: usize,
    out: &mut [MethodValue],
) -> u32
    ensures copied { CopiesItems (λ x. x.methods.items.items) (state_of set.old) from out.old out.new result }
    ensures same { state_of set.new ≡ state_of set.old }
{
    copy_items(alloc, set, Methods, from, out)
}

/// Copies the bodies of methods from one on.
#[unsafe(no_mangle)]
pub extern "C" fn acpidis_c_bodies(
    alloc: Global,
    set: &mut Set,
    from: usize,
    out: &mut [BodyValue],
) -> u32
    ensures copied { CopiesItems (λ x. x.bodies.items.items) (state_of set.old) from out.old out.new result }
    ensures same { state_of set.new ≡ state_of set.old }
{
    copy_items(alloc, set, Bodies, from, out)
}

/// Copies bytes of the texts of rows (0), of methods (1) or of bodies (any other number) from one on.
#[unsafe(no_mangle)]
pub extern "C" fn acpidis_c_texts(
    alloc: Global,
    set: &mut Set,
    of: u32,
    from: usize,
    out: &mut [u8],
) -> u32
    ensures copied { CopiesItems (texts_of of) (state_of set.old) from out.old out.new result }
    ensures same { state_of set.new ≡ state_of set.old }
{
    copy_items(alloc, set, Texts { of }, from, out)
}
