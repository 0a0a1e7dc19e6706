// Logs in the notation of Casanova and Bernstein 1981: a text is read byte by byte into a log, which is judged as every log is and then put down.
#![tactic(auto)]

ghost use Rattle.std.specs.Prelude.{◌≡◌, ◌≢◌, true, false, [], ◌∷◌, ◌++◌, ◌+◌, ◌-◌, ◌*◌, ◌<◌, ◌≤◌, length, SomeIff, IfSome, MatchOption};
ghost use Rattle.history.specs.Events.{History};
ghost use Rattle.verdicts.specs.Logs.{read_log, fields, record_of};
ghost use Rattle.notation.specs.Parse.{kind_of, is_digit, goes_on, job_next, cell_next, next, whole_at, event_at, parse};
ghost use Rattle.notation.specs.Answers.{imported, import};
ghost use Rattle.importer.specs.Importer.{refusal_code, refusal_place, answered, access_number, kind_number, letter_number, as_read, as_next, Inside, event_of, Holds, Given};
ghost use Rattle.importer.specs.declared.Refusal.TheVariants.{Log};

pub use codes::Told;
pub use logs::Fault;

// What import answers: the count of bytes of the log, or a refusal with its place.
pub type Imported = Result<usize, Refusal>;

// The text is not of the form; or the log that it says is faulty; or there is no room for it.
#[derive(Clone, Copy, PartialEq, Eq)]
pub enum Refusal {
    Text(usize),
    Log(Fault),
    NoRoom,
}

impl From<Fault> for Refusal {
    ghost from_gives = { λ fault refusal. refusal ≡ Log fault };

    fn from(f: Fault) -> Refusal {
        Refusal::Log(f)
    }
}

impl Told for Refusal {
    ghost number = { refusal_code };

    ghost place_of = { refusal_place };

    fn code(self) -> u32 {
        match self {
            Refusal::Text(_) => 26,
            Refusal::Log(fault) => fault.code(),
            Refusal::NoRoom => 24,
        }
    }

    fn place(self) -> usize {
        match self {
            Refusal::Text(place) => place,
            Refusal::Log(fault) => fault.place(),
            Refusal::NoRoom => 0,
        }
    }
}

// ---- one byte, as in Parse of the crate notation

// What a symbol with a cell does.
#[derive(Clone, Copy)]
enum Access {
    Read,
    Write,
}

impl Access {
    // The kind of its record. Kinds of records are numbers here and in `record`: these alone put them down.
    fn number(self) -> u8
        ensures { result ≡ access_number self }
    {
        match self {
            Access::Read => 2,
            Access::Write => 3,
        }
    }
}

// The kinds of symbols.
#[derive(Clone, Copy)]
enum Kind {
    Begin,
    End,
    Step(Access),
}

impl Kind {
    // The kind that a letter says.
    #[tactic(auto, unfolding(notation::specs::Parse::kind_of))]
    fn of_letter(byte: u8) -> Option<Kind>
        ensures { letter_number result ≡ kind_of byte }
    {
        match byte {
            b'B' => Some(Kind::Begin),
            b'R' => Some(Kind::Step(Access::Read)),
            b'W' => Some(Kind::Step(Access::Write)),
            b'E' => Some(Kind::End),
            _ => None,
        }
    }
}

// Where a reading stands, with what is read of the symbol so far.
#[derive(Clone, Copy)]
enum Stand {
    // no byte yet
    Start,
    // after a blank
    Blank,
    // after a letter
    Letter(Kind),
    // in the digits of a job
    Job(Kind, u32),
    // after `[`
    Bracket(Access, u32),
    // in the digits of a cell
    Cell(Access, u32, u16),
    // after `]`
    Closed(Access, u32, u16),
}

// A symbol that is read whole: the job, and the cell where it has one.
#[derive(Clone, Copy)]
enum Symbol {
    Begin(u32),
    End(u32),
    Step(Access, u32, u16),
}

// The digit that a byte says. Numbers are read by hand: but for 0 itself the form has none that begins with 0, and the `parse` of std takes those.
#[tactic(auto, unfolding(notation::specs::Parse::is_digit))]
fn digit(byte: u8) -> Option<u8>
    ensures { SomeIff result (is_digit byte ≡ true) (byte - 48) }
{
    if byte.is_ascii_digit() {
        Some(byte - b'0')
    } else {
        None
    }
}

// The number that the digits say with one more. None may follow a 0, and the number stays below the limit.
#[tactic(auto, unfolding(notation::specs::Parse::goes_on))]
fn goes_on(n: u32, byte: u8, limit: u64) -> Option<u32>
    requires { (48 ≤ byte) × (byte ≤ 57) × (limit ≤ 4294967296) }
    ensures longer { SomeIff result (goes_on n byte limit ≡ true) (n * 10 + (byte - 48)) }
    ensures below { IfSome result (λ number. number < limit) }
{
    if n == 0 {
        return None;
    }
    let number = u64::from(n) * 10 + u64::from(byte - b'0');
    if number < limit {
        Some(number as u32)
    } else {
        None
    }
}

// After a digit of a job: a digit or `[`.
#[tactic(auto, unfolding(notation::specs::Parse::is_digit, notation::specs::Parse::with_cell))]
fn job_next(kind: Kind, job: u32, byte: u8) -> Option<Stand>
    requires { byte ≢ 32 }
    ensures stand { as_next result ≡ job_next (kind_number kind) job byte }
    ensures inside { IfSome result Inside }
{
    if byte.is_ascii_digit() {
        return Some(Stand::Job(kind, goes_on(job, byte, 4294967296)?));
    }
    match kind {
        Kind::Step(access) if byte == b'[' => Some(Stand::Bracket(access, job)),
        _ => None,
    }
}

// After a digit of a cell: a digit or `]`.
#[tactic(auto, unfolding(notation::specs::Parse::is_digit))]
fn cell_next(access: Access, job: u32, cell: u16, byte: u8) -> Option<Stand>
    ensures stand { as_next result ≡ cell_next (access_number access) job cell byte }
    ensures inside { IfSome result Inside }
{
    if byte.is_ascii_digit() {
        let longer = goes_on(u32::from(cell), byte, 65536)?;
        return Some(Stand::Cell(access, job, longer as u16));
    }
    if byte == b']' {
        Some(Stand::Closed(access, job, cell))
    } else {
        None
    }
}

impl Stand {
    // The next stand for a byte that is no blank; none where no text of the form goes on so.
    #[tactic(auto, unfolding(notation::specs::Parse::next))]
    fn next(self, byte: u8) -> Option<Stand>
        requires { byte ≢ 32 }
        ensures stand { as_next result ≡ next (as_read self) byte }
        ensures inside { IfSome result Inside }
    {
        match self {
            Stand::Start | Stand::Blank => Some(Stand::Letter(Kind::of_letter(byte)?)),
            Stand::Letter(kind) => Some(Stand::Job(kind, u32::from(digit(byte)?))),
            Stand::Job(kind, job) => job_next(kind, job, byte),
            Stand::Bracket(access, job) => Some(Stand::Cell(access, job, u16::from(digit(byte)?))),
            Stand::Cell(access, job, cell) => cell_next(access, job, cell, byte),
            Stand::Closed(_, _, _) => None,
        }
    }

    // The symbol that is read whole there. A blank may come after it, or the text may end.
    #[tactic(auto, unfolding(notation::specs::Parse::whole_at, notation::specs::Parse::with_cell, notation::specs::Parse::event_at))]
    fn whole_at(self) -> Option<Symbol>
        ensures { MatchOption result (whole_at (as_read self) ≡ false) (λ symbol. (whole_at (as_read self) ≡ true) × (event_at (as_read self) ≡ event_of symbol)) }
    {
        match self {
            Stand::Job(Kind::Begin, job) => Some(Symbol::Begin(job)),
            Stand::Job(Kind::End, job) => Some(Symbol::End(job)),
            Stand::Closed(access, job, cell) => Some(Symbol::Step(access, job, cell)),
            _ => None,
        }
    }
}

// ---- a whole text

// A record: the kind, 0, the cell in two bytes and the job in four, low byte first, as `fields` of verdicts says it.
fn fields(kind: u8, cell: u16, job: u32) -> [u8; 8]
    ensures { result ≡ fields kind cell job }
{
    let [c0, c1] = cell.to_le_bytes();
    let [j0, j1, j2, j3] = job.to_le_bytes();
    [kind, 0, c0, c1, j0, j1, j2, j3]
}

impl Symbol {
    // Its record.
    fn record(self) -> [u8; 8]
        ensures { result ≡ record_of (event_of self) }
    {
        match self {
            Symbol::Begin(job) => fields(1, 0, job),
            Symbol::End(job) => fields(4, 0, job),
            Symbol::Step(access, job, cell) => fields(access.number(), cell, job),
        }
    }
}

// One symbol more: its record is put down while the log has place for it. The count goes on past that, so that it is told of a log that is too long.
fn grow(log: &mut [u8], count: usize, symbol: Symbol)
    requires { length log.old ≡ 32768 }
    ensures { (h : History) → Holds h count log.old → Holds (h ++ event_of symbol ∷ []) (count + 1) log.new }
{
    if count < 4096 {
        let at = count * 8;
        log[at..at + 8].copy_from_slice(&symbol.record());
    }
}

// A whole text: how many symbols it has, or the place where it is not of the form. Their records are put in the log, as many as it has place for.
fn parse(text: &[u8], log: &mut [u8]) -> Result<usize, Refusal>
    requires { length log.old ≡ 32768 }
    ensures { Given result (parse text.now) log.new }
{
    let mut s = Stand::Start;
    let mut count: usize = 0;
    for (i, byte) in text.iter().enumerate() {
        if *byte == b' ' {
            let symbol = s.whole_at().ok_or(Refusal::Text(i))?;
            grow(log, count, symbol);
            count += 1;
            s = Stand::Blank;
        } else {
            s = s.next(*byte).ok_or(Refusal::Text(i))?;
        }
    }
    if let Stand::Start = s {
        return Ok(0);
    }
    let last = s.whole_at().ok_or(Refusal::Text(text.len()))?;
    grow(log, count, last);
    Ok(count + 1)
}

// ---- import

// A log that is judged as every log is, and put into the lent bytes where it has no fault and they have room.
fn put_log(log: &[u8], out: &mut [u8]) -> Imported
    ensures { answered result out.new ≡ imported (read_log log.now) log.now out.old }
{
    logs::judge(log)?;
    // As `copy_out` of exporter: two lines, and the refusal is of another type.
    if out.len() < log.len() {
        return Err(Refusal::NoRoom);
    }
    Ok(text::put_text(log, out, 0))
}

// The log that a text says, in the lent bytes. On a refusal they stay.
pub fn import_log(text: &[u8], out: &mut [u8]) -> Imported
    ensures { answered result out.new ≡ import text.now out.old }
{
    let mut log: [u8; 32768] = [0; 32768];
    let count = parse(text, &mut log[..])?;
    if 4096 < count {
        return Err(Refusal::Log(Fault::Length));
    }
    let size = count * 8;
    put_log(&log[..size], out)
}

// ---- as hosts call it; the crate `importer_c` exports it to C and Rust

// `import_log`: the code. `place` gets the place.
pub fn reedtangle_import(text: &[u8], out: &mut [u8], place: &mut u64) -> u32
    ensures { record { code = result; place = place.new; bytes = out.new } ≡ import text.now out.old }
{
    let r = import_log(text, out);
    *place = r.place() as u64;
    r.code()
}
