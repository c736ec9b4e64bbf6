// The name table of a stage that gives one back: whether the names that it is given fit into the lent outputs, and names put there with their ends.
#![tactic(auto)]

mod output;

ghost use Rattle.std.specs.Prelude.{◌≡◌, ◌||◌, ◌++◌, ◌+◌, ◌*◌, ◌/◌, ◌≤◌, ◌<◌, length, leb, ltb};
ghost use Rattle.obj.specs.Answers.{meaning};
ghost use Rattle.names.specs.Names.{Named, names_of};
ghost use Rattle.name_table.specs.NameTable.{end_of};
ghost use Rattle.stage_names.specs.StageNames.{names_room, bytes_room, beyond, fit_check, flat};
ghost use Rattle.names.specs.Listed.{names_in, NamedIn};
ghost use Rattle.stage_names.specs.Output.{FitsIn, PutIn, GivenIn, SameLent};

use fields::Field;
use names::{Names, Room, name_at, put_bytes};
use obj::{Refusal, place_of, refuse};
pub use output::NameOutput;
use outputs::{clear_from, room_for};

// How many names a stage may hold and give back in an output of `size` bytes.
#[tactic(auto, unfolding(crate::specs::StageNames::names_room, outputs::specs::Room::room_for))]
pub fn names_room(size: usize) -> usize
    ensures { result ≡ names_room size }
{
    room_for(4096, 2, size)
}

// How many bytes its names may have in all.
#[tactic(auto, unfolding(crate::specs::StageNames::bytes_room))]
pub fn bytes_room(size: usize) -> usize
    ensures { result ≡ bytes_room size }
{
    size.min(65535)
}

// Name k does not fit.
fn is_beyond(ends: &[u8], most: Room, k: usize) -> bool
    requires { 2 * k + 2 ≤ length ends.now }
    ensures { result ≡ beyond most.names most.bytes ends.now k }
{
    let end = u16::get(ends, 2 * k) as usize;
    (most.names <= k) | (most.bytes < end)
}

// The names that are given fit: 1 of their length, then 2 at the first that does not.
pub fn fit_names(ends: &[u8], most: Room) -> Result<(), Refusal>
    requires { most.names ≤ 4096 }
    ensures { meaning result ≡ fit_check most.names most.bytes ends.now }
{
    let n = ends.len() / 2;
    if ends.len() % 2 != 0 {
        return refuse(1, 0, place_of(n));
    }
    for k in 0..n {
        if is_beyond(ends, most, k) {
            return refuse(2, 0, k as u32);
        }
    }
    Ok(())
}

// The first n names of columns that may hold more.
pub fn first_names<'b, 'p, 'l>(names: &Names<'b, 'p, 'l>, n: usize) -> Names<'b, 'p, 'l>
    requires { Named names.now.bytes.now names.now.places.now names.now.lengths.now n }
    ensures named { NamedIn result }
    ensures names { names_in result ≡ names_of names.now.bytes.now names.now.places.now names.now.lengths.now n }
    ensures count { length result.places.now ≡ n }
{
    Names {
        bytes: names.bytes,
        places: &names.places[..n],
        lengths: &names.lengths[..n],
    }
}

// Names behind those that are there: `first` of them, which end at `at`. Gives where the last ends.
pub fn put_names(names: &Names, first: usize, at: usize, output: &mut NameOutput) -> usize
    requires { NamedIn names.now
        × (2 * first + 2 * length names.now.places.now ≤ length output.old.ends.now)
        × (at + length (flat (names_in names.now)) ≤ length output.old.bytes.now)
        × (at + length (flat (names_in names.now)) < 65536) }
    ensures put { PutIn (names_in names.now) first at output.old output.new result }
    ensures lent { SameLent output.old output.new }
{
    let mut end = at;
    for i in 0..names.places.len() {
        let x = name_at(names, i);
        put_bytes(output.bytes, end, x);
        end += x.len();
        (end as u16).put(output.ends, 2 * (first + i));
    }
    end
}

// The names of the tables and those that were added, with their ends, and zeros after them. Gives how many bytes they have.
pub fn give_names(table_names: &Names, added: &Names, output: &mut NameOutput) -> usize
    requires { NamedIn table_names.now
        × NamedIn added.now
        × FitsIn (names_in table_names.now) (names_in added.now) output.old }
    ensures given { GivenIn (names_in table_names.now ++ names_in added.now) output.old output.new result }
    ensures lent { SameLent output.old output.new }
{
    let n = table_names.places.len();
    let end = put_names(table_names, 0, 0, output);
    let last = put_names(added, n, end, output);
    clear_from(output.ends, 2 * (n + added.places.len()));
    clear_from(output.bytes, last);
    last
}
