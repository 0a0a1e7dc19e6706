// Cells and sets of cells: 256 marks in four words of 64, by shifts and masks. What a set is, word by word and mark by mark, and the laws over
// any width and any number of words are in the crate marks.
#![tactic(auto)]

ghost use Rattle.std.specs.Prelude.{◌≡◌, ◌+◌, ◌/◌, ◌%◌, ◌^◌, ◌<◌, Bool, get_or, replicate};
ghost use Rattle.std.specs.Result.{OkIff};
ghost use Rattle.marks.specs.Marks.{bit};
ghost use Rattle.marks.specs.Words.{marked, with_mark, union, overlap, empty};

use std::array;

// A cell, 0 to 255: every byte is one.
#[derive(Clone, Copy, Debug, PartialEq, Eq)]
pub struct Cell(pub u8);

// A number that is no cell: 256 or more.
#[derive(Clone, Copy, Debug, PartialEq, Eq)]
pub struct NoSuchCell;

impl TryFrom<u32> for Cell {
    type Error = NoSuchCell;

    ghost try_from_gives = { λ number outcome. OkIff outcome (number < 256) (record { 0 = number }) };

    fn try_from(number: u32) -> Result<Cell, NoSuchCell> {
        match u8::try_from(number) {
            Ok(byte) => Ok(Cell(byte)),
            Err(_) => Err(NoSuchCell),
        }
    }
}

impl Cell {
    // Which word of a set has the cell's mark, 0 to 3.
    pub fn place(self) -> usize
        ensures { result ≡ self.0 / 64 }
    {
        (self.0 / 64) as usize
    }

    // The cell's mark in that word.
    #[tactic(auto, using(marks::specs::MarkLaws::shl_one))]
    pub fn mark(self) -> u64
        ensures { result ≡ 2 ^ (self.0 % 64) }
    {
        1u64 << (self.0 % 64)
    }
}

// A set of cells: cell c is mark c % 64 of word c / 64.
#[derive(Clone, Copy, Debug, PartialEq, Eq)]
pub struct CellSet {
    pub words: [u64; 4],
}

impl CellSet {
    // No cell.
    pub fn none() -> CellSet
        ensures { result.words ≡ replicate 4 0 }
    {
        CellSet { words: [0; 4] }
    }

    // Is the cell in the set?
    #[tactic(auto, using(marks::specs::MarkLaws::test_mark), unfolding(marks::specs::Words::marked))]
    pub fn has(self, cell: Cell) -> bool
        ensures { result ≡ marked 64 self.words cell.0 }
    {
        self.words[cell.place()] & cell.mark() != 0
    }

    // The set with the cell.
    #[tactic(auto, unfolding(marks::specs::Words::with_mark))]
    pub fn with(mut self, cell: Cell) -> CellSet
        ensures { result.words ≡ with_mark 64 self.words cell.0 }
    {
        self.words[cell.place()] |= cell.mark();
        self
    }

    // The cells of the one or the other.
    pub fn union(self, other: CellSet) -> CellSet
        ensures { result.words ≡ union self.words other.words }
    {
        let a = self.words;
        let b = other.words;
        CellSet {
            words: array::from_fn(|i| a[i] | b[i]),
        }
    }

    // Is some cell in both?
    pub fn overlaps(self, other: CellSet) -> bool
        ensures { result ≡ overlap self.words other.words }
    {
        let a = self.words;
        let b = other.words;
        let both: [u64; 4] = array::from_fn(|i| a[i] & b[i]);
        both != [0; 4]
    }

    // Is no cell in the set?
    pub fn is_empty(self) -> bool
        ensures { result ≡ empty self.words }
    {
        self.words == [0; 4]
    }
}
