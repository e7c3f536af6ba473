//! Scripts that are no file of `data/`: lines that are no commands, bytes that are no text, long scripts, and
//! readers and writers that fail.
use crate::checks::{must, must_eq, must_for};
use std::alloc::{AllocError, Global};
use std::io::{self, ErrorKind, Read, Write};
use std::process::Abort;
use zarrs_script::run_script;

/// The script must print this text, and end with this status.
fn must_print(rt: &impl Abort, alloc: Global, script: &[u8], prints: &[u8], status: u8) {
    let mut reader = script;
    let mut text = Vec::new(alloc);
    let ended = run_script(alloc, &mut reader, &mut text);
    must_for(rt, script, text.as_slice() == prints);
    must_for(rt, script, ended == status);
}

/// Each script must print this message alone, and end with status 2.
fn must_complain(rt: &impl Abort, alloc: Global, scripts: &[&[u8]], message: &str) {
    for script in scripts {
        must_print(rt, alloc, script, message.as_bytes(), 2);
    }
}

/// Scripts whose first line is no command.
const FIRST: &[&[u8]] = &[
    b"array 4 2 uint8 256\n",
    b"array 4 2 float32 0\n",
    b"array 4 2 uint8\n",
    b"array 4 2 uint8 0 0\n",
    b"array 4  2 uint8 0\n",
    b"array 4 2 uint8 0 \n",
    b" array 4 2 uint8 0\n",
    b"array 4 2 uint8 -\n",
    b"array 4, 2 uint8 0\n",
    b"array +4 2 uint8 0\n",
    b"array 4 2 uint8 0\r\nkeys\n",
    // before any array
    b"keys\narray 4 2 uint8 0\n",
    b"meta\n",
    b"get",
    b"get 0,0",
    b"get 0,0 4,4 1",
    b"get 0,0,0 4,4",
    b"get 0,0 4",
    b"get - 4,4",
    b"get 0,0 four",
    b"get 18446744073709551615,0 1,1",
    b"get 0,9223372036854775808 1,9223372036854775808",
    b"put 0,0 2,2",
    b"put 0,0 1,1 1 1",
    b"put 0,0 1 1",
    b"put 0,0 1,1 256",
    b"put 0,18446744073709551615 1,1 1",
    b"resize 4\narray 4 2 uint8 0\n",
    // cells outside their type
    b"array 2 2 bool 2",
    b"array 2 2 bool -1",
    b"array 2 2 bool -0",
    b"array 2 2 bool true",
    b"array 2 2 int8 128",
    b"array 2 2 int8 -129",
    b"array 2 2 int16 32768",
    b"array 2 2 int16 -32769",
    b"array 2 2 int32 2147483648",
    b"array 2 2 int32 -2147483649",
    b"array 2 2 int64 9223372036854775808",
    b"array 2 2 int64 -9223372036854775809",
    b"array 2 2 int64 -18446744073709551616",
    b"array 2 2 uint8 -1",
    b"array 2 2 uint16 65536",
    b"array 2 2 uint32 4294967296",
    b"array 2 2 uint64 18446744073709551616",
    b"array 2 2 int8 --1",
    b"array 2 2 int8 -",
    b"array 2 2 int8 +1",
];

/// Scripts whose second line is no command.
const SECOND: &[&[u8]] = &[
    b"array 4 2 uint8 0\nchunk 0 1,256\n",
    b"array 4 2 uint8 0\nchunk 2\n",
    b"array 4 2 uint8 0\nread 99999999999999999999999\n",
    b"array 4 2 uint8 0\nkeys 0\n",
    b"array 4 2 uint8 0\nread 1,,1\n",
    b"array 4 2 uint8 0\nkey",
    b"array 4 2 uint8 0\nread \xff\xfe\n",
    b"array 4 2 uint8 0\nmeta 0\n",
    b"array 4 2 uint8 0\nmeta \n",
    b"array 4 2 uint8 0\nMeta\n",
    b"array 4 2 uint8 0\nmetadata\n",
    b"array 4 0 uint8 0\nmeta -\n",
    b"array 4 2 uint8 0\nresize\n",
    b"array 4 2 uint8 0\nresize 4 4\n",
    b"array 4 2 uint8 0\nresize -1\n",
    b"array 4 2 uint8 0\nresize 18446744073709551616\n",
    // words that are no region of two dimensions
    b"array 4,4 2,2 uint8 0\nget",
    b"array 4,4 2,2 uint8 0\nget 0,0",
    b"array 4,4 2,2 uint8 0\nget 0,0 4,4 1",
    b"array 4,4 2,2 uint8 0\nget 0,0,0 4,4",
    b"array 4,4 2,2 uint8 0\nget 0,0 4",
    b"array 4,4 2,2 uint8 0\nget - 4,4",
    b"array 4,4 2,2 uint8 0\nget 0,0 four",
    b"array 4,4 2,2 uint8 0\nget 18446744073709551615,0 1,1",
    b"array 4,4 2,2 uint8 0\nget 0,9223372036854775808 1,9223372036854775808",
    b"array 4,4 2,2 uint8 0\nput 0,0 2,2",
    b"array 4,4 2,2 uint8 0\nput 0,0 1,1 1 1",
    b"array 4,4 2,2 uint8 0\nput 0,0 1 1",
    b"array 4,4 2,2 uint8 0\nput 0,0 1,1 256",
    b"array 4,4 2,2 uint8 0\nput 0,18446744073709551615 1,1 1",
];

/// Scripts whose third line is no command.
const THIRD: &[&[u8]] = &[
    b"# first\n\nread 0\n",
    b"# first\n\nmeta\narray 4 2 uint8 0\n",
    b"array 4 2 uint8 0\nkeys\n \nchunk\n",
];

/// One whose fourth line is none.
const FOURTH: &[&[u8]] = &[b"array 4 2 uint8 0\n\n#\nread 18446744073709551616\n"];

#[test]
fn the_first_line_that_is_no_command_is_named(rt: HostRuntime) {
    must_complain(&rt, rt.alloc(), FIRST, "line 1: not a command\n");
    must_complain(&rt, rt.alloc(), SECOND, "line 2: not a command\n");
    must_complain(&rt, rt.alloc(), THIRD, "line 3: not a command\n");
    must_complain(&rt, rt.alloc(), FOURTH, "line 4: not a command\n");
}

#[test]
fn lines_are_plain_bytes(rt: HostRuntime) {
    let script =
        b"# \xff\xfe is no text\n\narray 004 0002 uint8 00\n#\n\nchunk 01 005,00255\nread 1";
    must_print(&rt, rt.alloc(), script, b"ok\nok\n5,255\n", 0);
}

/// Gives its text in small parts, and then an error.
#[derive(Drop)]
struct BrokenReader {
    text: &'static [u8],
}

impl Read for BrokenReader {
    fn read(&mut self, buffer: &mut [u8]) -> io::Result<usize> {
        let Some((first, rest)) = self.text.split_first() else {
            return Err(io::Error::from(ErrorKind::ConnectionReset));
        };
        let Some(place) = buffer.first_mut() else {
            return Ok(0);
        };
        *place = *first;
        self.text = rest;
        Ok(1)
    }
}

/// The reader must end the script with status 3, and nothing is printed.
fn must_not_read(rt: &impl Abort, alloc: Global, reader: &mut BrokenReader) {
    let mut text = Vec::new(alloc);
    must_eq(rt, run_script(alloc, reader, &mut text), 3);
    must(rt, text.is_empty());
}

#[test]
fn input_that_fails_ends_with_status_3(rt: HostRuntime) {
    let mut reader = BrokenReader {
        text: b"array 4 2 uint8 0\nkeys\n",
    };
    must_not_read(&rt, rt.alloc(), &mut reader);
}

/// Takes bytes one at a time. It fails when it has as many as there is room for; if there is always room, when it is flushed.
#[derive(Drop)]
struct BrokenWriter {
    text: Vec<u8>,
    room: Option<usize>,
}

impl Write for BrokenWriter {
    fn write(&mut self, bytes: &[u8]) -> io::Result<usize> {
        if self.room == Some(self.text.len()) {
            return Err(io::Error::from(ErrorKind::StorageFull));
        }
        let Some(first) = bytes.first() else {
            return Ok(0);
        };
        self.text.push(*first)?;
        Ok(1)
    }

    fn flush(&mut self) -> io::Result<()> {
        match self.room {
            Some(_) => Ok(()),
            None => Err(io::Error::from(ErrorKind::StorageFull)),
        }
    }
}

/// A writer with this room must end the script with status 3, and it has a front of the text.
fn must_not_write(rt: &impl Abort, alloc: Global, room: Option<usize>) {
    let mut reader = b"array 4 2 uint8 0\nread 5,5\nread 0\n".as_slice();
    let mut writer = BrokenWriter {
        text: Vec::new(alloc),
        room,
    };
    must_eq(rt, run_script(alloc, &mut reader, &mut writer), 3);
    must(rt, room.is_none() || room == Some(writer.text.len()));
    must(rt, b"ok\nrefused E3\n0,0\n".starts_with(&writer.text));
}

#[test]
fn output_that_fails_ends_with_status_3(rt: HostRuntime) {
    for room in 0..10 {
        must_not_write(&rt, rt.alloc(), Some(room));
    }
    must_not_write(&rt, rt.alloc(), None);
}

/// An array of 100 chunks, and `pairs` pairs of a `chunk` and a `read`.
fn long_script(alloc: Global, pairs: u32) -> Result<String, AllocError> {
    let mut script = String::from_str(alloc, "array 400 4 uint8 0\n")?;
    for pair in 0..pairs {
        let (chunk, cell) = (pair % 100, pair % 256);
        write!(&mut script, "chunk {chunk} 1,2,3,{cell}\nread {chunk}\n")?;
    }
    Ok(script)
}

/// The script must print so many bytes, and these lines last. The status is 0.
fn must_end(rt: &impl Abort, alloc: Global, script: &str, length: usize, last: &[u8]) {
    let mut reader = script.as_bytes();
    let mut text = Vec::new(alloc);
    must_eq(rt, run_script(alloc, &mut reader, &mut text), 0);
    must_eq(rt, text.len(), length);
    must(rt, text.ends_with(last));
}

#[test]
fn a_hundred_thousand_lines(rt: HostRuntime) {
    let script = long_script(rt.alloc(), 50_000).expect(&rt, "no refusal");
    // 50,001 times `ok`, and 50,000 lines `1,2,3,` with 128,460 digits behind it
    let length = 3 * 50_001 + 7 * 50_000 + 128_460;
    must_end(&rt, rt.alloc(), &script, length, b"\nok\n1,2,3,79\n");
}

/// Cells of one chunk, joined by commas, that take more than is gathered before it is written.
fn long_list(alloc: Global, cells: u32) -> Result<String, AllocError> {
    let mut list = String::from_str(alloc, "-30000")?;
    for cell in 1..cells {
        write!(&mut list, ",{cell}")?;
    }
    Ok(list)
}

/// A chunk of these cells must be printed as it was stored.
fn must_print_list(rt: &impl Abort, alloc: Global, list: &str) {
    let script = format!(in alloc; "array 20000 20000 int16 0\nchunk 0 {list}\nread 0\n");
    let script = script.expect(rt, "no refusal");
    let prints = format!(in alloc; "ok\nok\n{list}\n").expect(rt, "no refusal");
    must_print(rt, alloc, script.as_bytes(), prints.as_bytes(), 0);
}

#[test]
fn a_long_chunk_is_printed_whole(rt: HostRuntime) {
    let list = long_list(rt.alloc(), 20_000).expect(&rt, "no refusal");
    must_print_list(&rt, rt.alloc(), &list);
}
