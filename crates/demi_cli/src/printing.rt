// The lines of a log's records, said in pieces of some KiB.
ghost use Rattle.std.specs.Prelude.{◌≡◌, ◌+◌, ◌≤◌, ◌<◌, ◌++◌, ℕ, [], ◌∷◌, List, length, OnOk, OnErr, codes};
ghost use Rattle.std.specs.Fmt.{decimal};
ghost use Rattle.arrayvec.specs.ArrayString.{array_string_len};
ghost use Rattle.hex.specs.Hex.{encode_lower};
ghost use Rattle.demi_core.specs.Outside.{Rose};
ghost use Rattle.demi_core.specs.World.{SameSources, after_say};
ghost use Rattle.demi_spec.specs.Record.{Record};
ghost use Rattle.demi_cli.specs.Heads.{HeadsOf};
ghost use Rattle.demi_cli.specs.Lines.{count_line, line_of, log_lines, verdict_line};
ghost use Rattle.demi_cli.specs.Saying.{SaidBut, SaidFront};

use crate::head::Head;
use crate::heads::Heads;
use arrayvec::ArrayString;
use demi_core::{Failed, World};
use hex::encode_to_slice;
use itoa::Buffer;
use std::str;

// How many bytes are said at once at most.
const ROOM_BYTES: usize = 8192;

// How many bytes a line has at most: four numbers of 20 digits, a key of 510, and 26 between them.
const MAX_LINE_BYTES: usize = 616;

// How many bytes a key has at most in hexadecimal.
const MAX_KEY_DIGITS: usize = 510;

// Adds a word and a number.
fn push_number(text: &mut ArrayString<ROOM_BYTES>, word: &str, number: u64)
    requires { array_string_len text.old + length word.now + 20 ≤ 8192 }
    ensures text { text.new.bytes ≡ text.old.bytes ++ word.now ++ decimal number }
    ensures len { array_string_len text.new ≤ array_string_len text.old + length word.now + 20 }
{
    text.push_str(word);
    text.push_str(Buffer::new().format(number));
}

// Adds a key in hexadecimal.
fn push_key(text: &mut ArrayString<ROOM_BYTES>, key: &[u8])
    requires room { array_string_len text.old + 510 ≤ 8192 }
    requires key { length key.now ≤ 255 }
    ensures text { text.new.bytes ≡ text.old.bytes ++ encode_lower key.now }
    ensures len { array_string_len text.new ≤ array_string_len text.old + 510 }
{
    let mut room = [0; MAX_KEY_DIGITS];
    let digits = &mut room[..2 * key.len()];
    let Ok(()) = encode_to_slice(key, digits) else {
        unreachable!();
    };
    let Ok(digits) = str::from_utf8(digits) else {
        unreachable!();
    };
    text.push_str(digits);
}

// Adds the line of a record with this number, head and key.
fn push_line(text: &mut ArrayString<ROOM_BYTES>, number: u64, head: &Head, key: &[u8])
    requires room { array_string_len text.old + 616 ≤ 8192 }
    requires key { length key.now ≤ 255 }
    ensures { text.new.bytes ≡ text.old.bytes ++ line_of number head.now.link head.now.index key.now head.now.value_bytes }
{
    push_number(text, "", number);
    push_number(text, " link ", head.link as u64);
    push_number(text, " index ", head.index as u64);
    text.push_str(" key ");
    push_key(text, key);
    push_number(text, " value ", head.value_bytes as u64);
    text.push_str("\n");
}

// Adds the line of how many records there are.
fn push_count(text: &mut ArrayString<ROOM_BYTES>, count: u64)
    requires { array_string_len text.old + 616 ≤ 8192 }
    ensures { text.new.bytes ≡ text.old.bytes ++ count_line count }
{
    push_number(text, "records ", count);
    text.push_str("\n");
}

// Says what waits, unless one more line fits behind it.
fn make_room<W: World>(world: &mut W, text: &mut ArrayString<ROOM_BYTES>) -> Result<(), Failed>
    ensures said { OnOk result (SaidBut text.new.bytes text.old.bytes (W.state world.old) (W.state world.new)) }
    ensures room { OnOk result (array_string_len text.new + 616 ≤ 8192) }
    ensures part { OnErr result (SaidFront text.old.bytes (W.state world.old) (W.state world.new)) }
    ensures rose { OnErr result (Rose (W.print_faults world.old) (W.print_faults world.new)) }
    ensures later { W.print_faults world.old ≤ W.print_faults world.new }
    ensures faults { W.faults world.new ≡ W.faults world.old }
{
    if text.len() <= ROOM_BYTES - MAX_LINE_BYTES {
        return Ok(());
    }
    match world.say(text.as_str()) {
        Ok(()) => {
            text.clear();
            Ok(())
        }
        Err(failed) => Err(failed),
    }
}

// Adds the line of a record with this number, head and key, and may say what waits before it.
fn say_line<W: World>(
    world: &mut W,
    text: &mut ArrayString<ROOM_BYTES>,
    number: u64,
    head: &Head,
    key: &[u8],
) -> Result<(), Failed>
    requires { length key.now ≤ 255 }
    ensures said { OnOk result (SaidBut text.new.bytes (text.old.bytes ++ line_of number head.now.link head.now.index key.now head.now.value_bytes) (W.state world.old) (W.state world.new)) }
    ensures part { OnErr result (SaidFront text.old.bytes (W.state world.old) (W.state world.new)) }
    ensures rose { OnErr result (Rose (W.print_faults world.old) (W.print_faults world.new)) }
    ensures later { W.print_faults world.old ≤ W.print_faults world.new }
    ensures faults { W.faults world.new ≡ W.faults world.old }
{
    make_room(world, text)?;
    push_line(text, number, head, key);
    Ok(())
}

// Adds the line of how many records there are, and says all that waits.
fn say_count<W: World>(
    world: &mut W,
    text: &mut ArrayString<ROOM_BYTES>,
    count: u64,
) -> Result<(), Failed>
    ensures said { OnOk result (W.state world.new ≡ after_say (W.state world.old) (text.old.bytes ++ count_line count)) }
    ensures part { OnErr result (SaidFront (text.old.bytes ++ count_line count) (W.state world.old) (W.state world.new)) }
    ensures rose { OnErr result (Rose (W.print_faults world.old) (W.print_faults world.new)) }
    ensures later { W.print_faults world.old ≤ W.print_faults world.new }
    ensures faults { W.faults world.new ≡ W.faults world.old }
{
    match make_room(world, text) {
        Ok(()) => {}
        Err(failed) => return Err(failed),
    }
    push_count(text, count);
    match world.say(text.as_str()) {
        Ok(()) => Ok(()),
        Err(failed) => Err(failed),
    }
}

// Says the lines of all records that have these heads.
pub fn say_heads<W: World>(world: &mut W, heads: &Heads) -> Result<(), Failed>
    requires { (records : List Record) × HeadsOf heads.now records }
    ensures said { (records : List Record) → HeadsOf heads.now records → OnOk result (W.state world.new ≡ after_say (W.state world.old) (log_lines records)) }
    ensures part { (records : List Record) → HeadsOf heads.now records → OnErr result (SaidFront (log_lines records) (W.state world.old) (W.state world.new)) }
    ensures rose { OnErr result (Rose (W.print_faults world.old) (W.print_faults world.new)) }
    ensures later { W.print_faults world.old ≤ W.print_faults world.new }
    ensures faults { W.faults world.new ≡ W.faults world.old }
{
    let rows = heads.heads.as_slice();
    let keys = heads.keys.as_slice();
    let mut text = ArrayString::new();
    let mut at = 0;
    'saying: for i in 0..rows.len() {
        let head = &rows[i];
        let end = at + head.key_bytes as usize;
        match say_line(world, &mut text, i as u64 + 1, head, &keys[at..end]) {
            Ok(()) => at = end,
            Err(failed) => return Err(failed),
        }
    }
    say_count(world, &mut text, rows.len() as u64)
}

// Says the line of a consistent transcript.
pub fn say_verdict<W: World>(
    world: &mut W,
    links: u32,
    replies: u64,
    records: u64,
) -> Result<(), Failed>
    ensures said { OnOk result (W.state world.new ≡ after_say (W.state world.old) (verdict_line links replies records)) }
    ensures part { OnErr result (SaidFront (verdict_line links replies records) (W.state world.old) (W.state world.new)) }
    ensures rose { OnErr result (Rose (W.print_faults world.old) (W.print_faults world.new)) }
    ensures later { W.print_faults world.old ≤ W.print_faults world.new }
    ensures faults { W.faults world.new ≡ W.faults world.old }
{
    let mut text = ArrayString::new();
    push_number(&mut text, "consistent: links ", links as u64);
    push_number(&mut text, " replies ", replies);
    push_number(&mut text, " records ", records);
    text.push_str("\n");
    match world.say(text.as_str()) {
        Ok(()) => Ok(()),
        Err(failed) => Err(failed),
    }
}
