// Logs in the report's notation, tried: texts and logs from standard input go through the import and the export, there and back.
//
// Each line of the input is a case and gets one line of output. How both are written stands at the start of `stdin`. What is expected stands in `stdout`, and
// bench/notation.py works it out a second way, with nothing shared. What is proved here is that the program is safe and ends, and nothing of its answers.
#![tactic(auto)]

use codes::Told;
use exporter::Exported;
use importer::Imported;

// ---- bytes

// The first so many, or all where there are no more.
fn part(bytes: &[u8], n: usize) -> &[u8] {
    bytes.get(..n).unwrap_or(bytes)
}

const MODULUS: u64 = 4_294_967_291;

// What is told of many bytes by one number: from 0, for each byte times 257, plus the byte, plus 1, modulo 4,294,967,291.
fn mark(bytes: &[u8]) -> u64 {
    let all = bytes.iter().fold(0, |mark, byte| {
        mark % MODULUS * 257 + u64::from(*byte) + 1
    });
    all % MODULUS
}

// What a hex digit says.
// By hand: `to_digit` takes capitals too.
fn digit(byte: u8) -> Option<u8> {
    match byte {
        b'0'..=b'9' => Some(byte - b'0'),
        b'a'..=b'f' => Some(byte - b'a' + 10),
        _ => None,
    }
}

// The bytes that the hex digits of a line say, two a byte; how many. What is no digit is passed over.
fn unhex(line: &[u8], log: &mut [u8]) -> usize {
    let mut digits = line.iter().filter_map(|byte| digit(*byte));
    for (size, byte) in log.iter_mut().enumerate() {
        let (Some(high), Some(low)) = (digits.next(), digits.next()) else {
            return size;
        };
        *byte = high << 4 | low;
    }
    log.len()
}

// ---- what is asked

// The import and the export, with room for so many bytes.
// Two, as the refusals are two types: one function would be lent the call and the refusal.
fn import_in(words: &[u8], log: &mut [u8], room: usize) -> Imported {
    match log.get_mut(..room) {
        Some(log) => importer::import_log(words, log),
        None => Err(importer::Refusal::NoRoom),
    }
}

fn export_in(log: &[u8], words: &mut [u8], room: usize) -> Exported {
    match words.get_mut(..room) {
        Some(words) => exporter::export_log(log, words),
        None => Err(exporter::Refusal::NoRoom),
    }
}

// ---- what is written

// What is put together to be written at once, of which so many bytes wait. It has room for a line of output behind as many bytes as may wait before one.
#[derive(Drop)]
struct Output {
    bytes: [u8; 204800],
    waits: usize,
}

impl Output {
    fn put(&mut self, words: &[u8]) {
        self.waits = text::put_text(words, &mut self.bytes, self.waits);
    }

    fn put_number(&mut self, n: u64) {
        self.waits = text::put_number(n, &mut self.bytes, self.waits);
    }

    fn put_told(&mut self, before: &[u8], told: impl Told) {
        self.put(before);
        self.put_number(u64::from(told.code()));
        self.put(b" ");
        self.put_number(told.place() as u64);
    }

    // The mark of a log, and whether it came back.
    fn put_log(&mut self, log: &[u8], is_back: bool) {
        self.put(b" ");
        self.put_number(mark(log));
        self.put(if is_back { b" same" } else { b" other" });
    }

    // Writes what waits.
    fn write(&mut self, rt: &impl Print) {
        host::write_all(rt, part(&self.bytes, self.waits));
        self.waits = 0;
    }
}

// ---- a case

// A text and its log: the export into just the room that it needs, and both ways with one byte less.
fn back_to_text(words: &[u8], log: &[u8], out: &mut Output) {
    let mut said = [0u8; 69632];
    let mut again = [0u8; 32768];
    let is_back = match export_in(log, &mut said, words.len()) {
        Ok(size) => part(&said, size) == words,
        Err(_) => false,
    };
    out.put_log(log, is_back);
    let short = export_in(log, &mut said, words.len().saturating_sub(1));
    out.put_told(b" ", short);
    let short = import_in(words, &mut again, log.len().saturating_sub(1));
    out.put_told(b" ", short);
}

fn try_text(words: &[u8], out: &mut Output) {
    let mut log = [0u8; 32768];
    let told = importer::import_log(words, &mut log);
    out.put_told(b"text ", told);
    if let Ok(size) = told {
        back_to_text(words, part(&log, size), out);
    }
}

// A log and its text: the import of that.
fn back_to_log(log: &[u8], words: &[u8], out: &mut Output) {
    let mut again = [0u8; 32768];
    let told = importer::import_log(words, &mut again);
    out.put_told(b" ", told);
    let found = part(&again, told.place());
    out.put_log(found, found == log);
    out.put(b": ");
    out.put(words);
}

fn try_log(line: &[u8], out: &mut Output) {
    let mut bytes = [0u8; 65536];
    let mut words = [0u8; 69632];
    let size = unhex(line, &mut bytes);
    let log = part(&bytes, size);
    let told = exporter::export_log(log, &mut words);
    out.put_told(b"log ", told);
    if let Ok(size) = told {
        back_to_log(log, part(&words, size), out);
    }
}

// ---- the lines

fn try_line(line: &[u8], out: &mut Output) {
    match line {
        [b'#', ..] => out.put(line),
        [b'=', ..] => try_log(line, out),
        _ => try_text(line, out),
    }
    out.put(b"\n");
}

// So many bytes are read. An input that fills them may be longer: that is said.
const SPACE: usize = 131072;

fn main(rt: HostRuntime) {
    let mut input = [0u8; SPACE];
    let mut out = Output {
        bytes: [0; 204800],
        waits: 0,
    };
    let count = host::read_full(&mut rt.stdin(), &mut input);
    for line in input[..count].split_inclusive(|byte| *byte == b'\n') {
        try_line(line.strip_suffix(b"\n").unwrap_or(line), &mut out);
        if 65536 <= out.waits {
            out.write(&rt);
        }
    }
    out.write(&rt);
    if count == SPACE {
        host::write_all(&rt, b"INPUT TOO LONG\n");
    }
}
