// The export of a log as a text in the notation of Casanova and Bernstein 1981, with the abandoned jobs left out. A log that holds an add is refused: the notation has none.
#![tactic(auto)]

ghost use Rattle.std.specs.Prelude.{◌≡◌, List, [], ◌∷◌, ◌++◌, ℕ, ◌+◌, ◌*◌, ◌≤◌, ◌<◌, length, position};
ghost use Rattle.text.specs.Decimal.{decimal};
ghost use Rattle.text.specs.Puts.{Puts};
ghost use Rattle.history.specs.Events.{History};
ghost use Rattle.blocks.specs.Blocks.{filled};
ghost use Rattle.logs.specs.Logs.{Holds};
ghost use Rattle.notation.specs.Notation.{symbol, text_of, without_abandoned, NoAdd};
ghost use Rattle.notation.specs.Answers.{before_adds, exported, export};
ghost use Rattle.exporter.specs.Exporter.{refusal_code, refusal_place, answered, add_told, event_at, gap, symbol_told, PutsMost};
ghost use Rattle.exporter.specs.declared.Refusal.TheVariants.{Log};

pub use codes::Told;
pub use logs::Fault;
use logs::{ABANDONED, Table};

// What the exporter answers: the count of bytes of the text, or a refusal with its place.
pub type Exported = Result<usize, Refusal>;

// The log is faulty; or it holds an add, the first at the place told; or there is no room for the text.
#[derive(Clone, Copy, PartialEq, Eq)]
pub enum Refusal {
    Log(Fault),
    Add(usize),
    NoRoom,
}

impl From<Fault> for Refusal {
    ghost from_gives = { λ fault refusal. refusal ≡ Log fault };

    fn from(f: Fault) -> Refusal {
        Refusal::Log(f)
    }
}

impl Told for Refusal {
    ghost number = { refusal_code };

    ghost place_of = { refusal_place };

    fn code(self) -> u32 {
        match self {
            Refusal::Log(fault) => fault.code(),
            Refusal::Add(_) => 27,
            Refusal::NoRoom => 24,
        }
    }

    fn place(self) -> usize {
        match self {
            Refusal::Log(fault) => fault.place(),
            Refusal::Add(place) => place,
            Refusal::NoRoom => 0,
        }
    }
}

// ---- one symbol

// Each function is lent the bytes and a place in them, and answers the place past what it put: `put_number` of `text` is called so, and its theory (`Puts`) says it so.

// A letter and the job.
fn put_job(letter: u8, job: u32, out: &mut [u8], at: usize) -> usize
    requires { at + 11 ≤ length out.old }
    ensures { PutsMost at 11 (letter ∷ decimal job) out.old out.new result }
{
    out[at] = letter;
    text::put_number(job as u64, out, at + 1)
}

// A cell in square brackets.
fn put_cell(cell: u32, out: &mut [u8], at: usize) -> usize
    requires { (at + 5 ≤ length out.old) × (cell < 256) }
    ensures { PutsMost at 5 (91 ∷ (decimal cell ++ (93 ∷ []))) out.old out.new result }
{
    out[at] = b'[';
    let end = text::put_number(cell as u64, out, at + 1);
    out[end] = b']';
    end + 1
}

// A read or a write.
fn put_step(letter: u8, job: u32, cell: u32, out: &mut [u8], at: usize) -> usize
    requires { (at + 16 ≤ length out.old) × (cell < 256) }
    ensures { PutsMost at 16 (letter ∷ (decimal job ++ (91 ∷ (decimal cell ++ (93 ∷ []))))) out.old out.new result }
{
    let end = put_job(letter, job, out, at);
    put_cell(cell, out, end)
}

// The symbol of a row: the reads of cells 0 to 255, then the writes of those, then, past the rows of adds, which never come here, the opens (768) and the ends (769).
// A row is a number, as the table of a log tells it; it is taken apart here alone.
fn put_symbol(row: u32, job: u32, out: &mut [u8], at: usize) -> usize
    requires { (at + 16 ≤ length out.old) × (row < 770) }
    ensures { PutsMost at 16 (symbol (event_at row job)) out.old out.new result }
{
    match row {
        0..=255 => put_step(b'R', job, row, out, at),
        256..=511 => put_step(b'W', job, row - 256, out, at),
        768 => put_job(b'B', job, out, at),
        _ => put_job(b'E', job, out, at),
    }
}

// A blank, but not before the first symbol.
fn put_blank(out: &mut [u8], at: usize) -> usize
    requires { at < length out.old }
    ensures { PutsMost at 1 (gap at) out.old out.new result }
{
    if at == 0 {
        return at;
    }
    out[at] = b' ';
    at + 1
}

// What a record comes to: nothing where it is an abandon or its job was abandoned, and else a symbol. The number told is taken apart here, as `symbol_told` says it.
fn put_told(step: u32, table: &Table, out: &mut [u8], at: usize) -> usize
    requires { at + 17 ≤ length out.old }
    ensures { PutsMost at 17 (symbol_told table.now.numbers table.now.states step at) out.old out.new result }
{
    if step == 0 {
        return at;
    }
    let job = ((step - 1) / 770 % 512) as usize;
    if table.states[job] == ABANDONED {
        return at;
    }
    let from = put_blank(out, at);
    put_symbol((step - 1) % 770, table.numbers[job], out, from)
}

// ---- adds

// Does it tell of an add? It is its row plus 1, modulo 770, and the rows of adds are 512 to 767.
#[tactic(auto, unfolding(crate::specs::Exporter::add_told))]
fn is_add(step: u32) -> bool
    ensures { result ≡ add_told step }
{
    (513..=768).contains(&(step % 770))
}

// The place of the first add among the records told.
fn first_add(told: &[u32]) -> Option<usize>
    ensures { result ≡ position add_told told.now }
{
    told.iter().position(|step| is_add(*step))
}

// ---- the text

// The symbols of the first n records, none of which is an add. How many records a log has is not in its table, where every entry past them is 0.
fn put_all(table: &Table, n: usize, out: &mut [u8]) -> usize
    requires { (n ≤ 4096) × (n * 17 ≤ length out.old) }
    ensures { (result ≤ length out.new) × ((h : History) → Holds h n table.now → NoAdd h → Puts 0 (text_of (without_abandoned h)) out.old out.new result) }
{
    let mut at: usize = 0;
    for step in &table.told[..n] {
        at = put_told(*step, table, out, at);
    }
    at
}

// The text, where there is room for it. `put_log` of importer has the like: two lines, and the refusal is of another type.
fn copy_out(said: &[u8], out: &mut [u8]) -> Exported
    ensures { answered result out.new ≡ filled said.now out.old }
{
    if out.len() < said.len() {
        return Err(Refusal::NoRoom);
    }
    Ok(text::put_text(said, out, 0))
}

// The text of a log of n records that is read, where it holds no add: a table does not say how many its log has. A symbol has at most 16 bytes, and a blank before it.
fn export_read(table: &Table, n: usize, out: &mut [u8]) -> Exported
    requires { n ≤ 4096 }
    ensures { (h : History) → Holds h n table.now → answered result out.new ≡ exported h (before_adds h) out.old }
{
    if let Some(first) = first_add(&table.told[..n]) {
        return Err(Refusal::Add(first));
    }
    let mut said: [u8; 69632] = [0; 69632];
    let size = put_all(table, n, &mut said);
    copy_out(&said[..size], out)
}

// The text of a log, in the lent bytes. On a refusal they stay.
pub fn export_log(log: &[u8], out: &mut [u8]) -> Exported
    ensures { answered result out.new ≡ export log.now out.old }
{
    let mut table = Table::blank();
    logs::read_jobs(log, &mut table)?;
    export_read(&table, log.len() / 8, out)
}

// ---- as hosts call it; the crate `exporter_c` exports it to C and Rust

// `export_log`: the code. `place` gets the place.
pub fn reedtangle_export(log: &[u8], out: &mut [u8], place: &mut u64) -> u32
    ensures { record { code = result; place = place.new; bytes = out.new } ≡ export log.now out.old }
{
    let e = export_log(log, out);
    *place = e.place() as u64;
    e.code()
}
