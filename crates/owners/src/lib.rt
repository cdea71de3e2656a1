// Who owns which separators: a table lent as bytes, ten a row, checked and asked.
#![tactic(auto)]

ghost use Rattle.std.specs.Prelude.{◌≡◌, ◌≤◌, ◌<◌, false, map, MatchOption};
ghost use Rattle.basics.specs.Logic.{any};
ghost use Rattle.owners.specs.Owners.{row_of, table_of, row_count, at_fault, first_fault, holds, least_free, number_count, line_of, checked, asked, value_of};
ghost use Rattle.owners.specs.Answers.{table_refusal, fault_place, ask_refusal, ask_place, checked_answer, asked_answer};
ghost use Rattle.owners.specs.declared.AskFault.TheVariants.{Table};

use basics::{ACCEPTED, Refusal};

// The bytes of a row.
pub const ROW_BYTES: usize = 10;

// The most rows that a table has.
pub const MAX_ROWS: usize = 128;

// A row: the product line owns the numbers from the first to the last.
#[derive(Clone, Copy, Debug, PartialEq, Eq)]
pub struct OwnerRow {
    pub first: u32,
    pub last: u32,
    pub line: u16,
}

impl From<&[u8; ROW_BYTES]> for OwnerRow {
    ghost from_gives = { λ bytes row. row ≡ row_of bytes.now };

    // The numbers stand in a row with their highest byte first.
    fn from(bytes: &[u8; ROW_BYTES]) -> OwnerRow {
        let [f0, f1, f2, f3, l0, l1, l2, l3, high, low] = *bytes;
        OwnerRow {
            first: u32::from_be_bytes([f0, f1, f2, f3]),
            last: u32::from_be_bytes([l0, l1, l2, l3]),
            line: u16::from_be_bytes([high, low]),
        }
    }
}

impl OwnerRow {
    // Whether the row holds a number.
    fn holds(self, number: u32) -> bool
        ensures { result ≡ holds number self }
    {
        self.first <= number && number <= self.last
    }
}

// Why a table is turned away.
#[derive(Clone, Copy, Debug, PartialEq, Eq)]
pub enum TableFault {
    // The first row at fault, counted from 1.
    Row(u32),

    // The least number that no row holds.
    Gap(u32),
}

impl TableFault {
    // What C gets beside the refusal.
    pub fn place(self) -> u32
        ensures { result ≡ fault_place self }
    {
        match self {
            TableFault::Row(row) => row,
            TableFault::Gap(number) => number,
        }
    }
}

impl From<TableFault> for Refusal {
    ghost from_gives = { λ fault refusal. refusal ≡ table_refusal fault };

    // The refusal is what C knows of a fault.
    fn from(fault: TableFault) -> Refusal {
        match fault {
            TableFault::Row(_) => Refusal::OwnersRowInvalid,
            TableFault::Gap(_) => Refusal::OwnersGap,
        }
    }
}

// Why a table that is asked for a separator gives no line.
#[derive(Clone, Copy, Debug, PartialEq, Eq)]
pub enum AskFault {
    // The table itself is turned away.
    Table(TableFault),

    // The separator is under four bytes.
    SeparatorTooShort,
}

impl AskFault {
    // What C gets beside the refusal.
    pub fn place(self) -> u32
        ensures { result ≡ ask_place self }
    {
        match self {
            AskFault::Table(fault) => fault.place(),
            AskFault::SeparatorTooShort => 0,
        }
    }
}

impl From<TableFault> for AskFault {
    ghost from_gives = { λ fault ask. ask ≡ Table fault };

    // A table is checked before it is asked.
    fn from(fault: TableFault) -> AskFault {
        Self::Table(fault)
    }
}

impl From<AskFault> for Refusal {
    ghost from_gives = { λ fault refusal. refusal ≡ ask_refusal fault };

    // The refusal is what C knows of a fault.
    fn from(fault: AskFault) -> Refusal {
        match fault {
            AskFault::Table(fault) => Refusal::from(fault),
            AskFault::SeparatorTooShort => Refusal::SeparatorTooShort,
        }
    }
}

// The whole rows of a table.
fn whole_rows(table: &[u8]) -> &[[u8; ROW_BYTES]]
    ensures { map row_of result.now ≡ (table_of table.now).rows }
{
    let (rows, _) = table.as_chunks::<ROW_BYTES>();
    rows
}

// How many rows there are, one cut short included.
fn row_count(table: &[u8]) -> usize
    ensures { result ≡ row_count (table_of table.now) }
{
    table.len().div_ceil(ROW_BYTES)
}

// Whether row k, counted from 1, is at fault.
fn at_fault(table: &[u8], k: usize) -> bool
    requires { 1 ≤ k }
    ensures { result ≡ at_fault (table_of table.now) k }
{
    let rows = whole_rows(table);
    if k > MAX_ROWS || k > rows.len() {
        return true;
    }
    let row = OwnerRow::from(&rows[k - 1]);
    if row.first > row.last {
        return true;
    }
    if k == 1 {
        return false;
    }
    let previous = OwnerRow::from(&rows[k - 2]);
    row.first <= previous.last
}

// The first row at fault, counted from 1. Row 129 is at fault, so no later one is looked at.
fn first_fault(table: &[u8]) -> Option<u32>
    ensures { MatchOption result
        (row_count (table_of table.now) < first_fault (table_of table.now))
        (λ k. (k ≤ row_count (table_of table.now)) × (k ≡ first_fault (table_of table.now))) }
{
    for k in 1..=row_count(table) {
        if at_fault(table, k) {
            return Some(k as u32);
        }
    }
    None
}

// The least number that no row holds, where no row is at fault: rows rise then, so it is the first one between them.
fn least_free(table: &[u8]) -> Option<u32>
    requires { row_count (table_of table.now) < first_fault (table_of table.now) }
    ensures { MatchOption result
        (number_count ≤ least_free (table_of table.now))
        (λ number. (number < number_count) × (number ≡ least_free (table_of table.now))) }
{
    let mut free = Some(0);
    for bytes in whole_rows(table) {
        let row = OwnerRow::from(bytes);
        if free != Some(row.first) {
            return free;
        }
        free = row.last.checked_add(1);
    }
    free
}

// The line of the first row that holds a number.
fn line_of(table: &[u8], number: u32) -> Option<u16>
    ensures { MatchOption result
        (any (holds number) (table_of table.now).rows ≡ false)
        (λ line. line ≡ line_of number (table_of table.now).rows) }
{
    for bytes in whole_rows(table) {
        let row = OwnerRow::from(bytes);
        if row.holds(number) {
            return Some(row.line);
        }
    }
    None
}

// Checks a table.
pub fn check(table: &[u8]) -> Result<(), TableFault>
    ensures { checked_answer result ≡ checked (table_of table.now) }
{
    if let Some(row) = first_fault(table) {
        return Err(TableFault::Row(row));
    }
    if let Some(number) = least_free(table) {
        return Err(TableFault::Gap(number));
    }
    Ok(())
}

// Asks a table for the product line of a separator: checks the table, then the separator's length, then looks the
// number up, which some row of a table that passes holds.
pub fn owner(table: &[u8], separator: &[u8]) -> Result<u16, AskFault>
    ensures { asked_answer result ≡ asked (table_of table.now) separator.now }
{
    check(table)?;
    let Some(bytes) = separator.first_chunk::<4>() else {
        return Err(AskFault::SeparatorTooShort);
    };
    let number = u32::from_be_bytes(*bytes);
    Ok(line_of(table, number).unwrap())
}

// The answer to a table that is asked, as numbers: with 0 the line, with 15 and 16 the place; what does not come with a
// number is 0.
#[derive(Clone, Copy)]
pub struct Asked {
    pub number: u32,
    pub place: u32,
    pub line: u16,
}

impl Asked {
    // The numbers of an answer.
    pub fn of(answer: &Result<u16, AskFault>) -> Asked
        ensures { result ≡ asked_answer answer.now }
    {
        match answer {
            Ok(line) => Asked {
                number: ACCEPTED,
                place: 0,
                line: *line,
            },
            Err(fault) => Asked {
                number: u32::from(Refusal::from(*fault)),
                place: fault.place(),
                line: 0,
            },
        }
    }
}

// What comes with an answer's number, as one number: with 0 the line, otherwise the place.
pub fn value(asked: Asked) -> u32
    ensures { result ≡ value_of asked }
{
    if asked.number == ACCEPTED {
        return u32::from(asked.line);
    }
    asked.place
}
