// Text as it is written into lent bytes: each function writes from `at` on and answers where what it wrote ends. (Not `Display`: no clause says what a `fmt`
// has written, and each byte that is printed is promised.)
#![tactic(auto)]

ghost use Rattle.std.specs.Prelude.{◌++◌, ◌≡◌, ◌+◌, ◌*◌, ◌<◌, ◌≤◌, length};
ghost use Rattle.std.proofs.lemmas.List.Edits.{sets};
ghost use Rattle.text.specs.Text.{decimal, number_then, refusal_line, count_line, row_line, row_lines};
ghost use Rattle.text.specs.Wrote.{Wrote};

use limits::Refusal;

// The bytes of a word.
fn put(text: &mut [u8], at: usize, word: &[u8]) -> usize
    requires { at + length word.now ≤ length text.old }
    ensures { Wrote text.old at word.now text.new result }
{
    let end = at + word.len();
    text[at..end].copy_from_slice(word);
    end
}

// A number in decimal: the digits above the last, then the last.
fn put_decimal(text: &mut [u8], at: usize, n: u64) -> usize
    requires { at + length (decimal n) ≤ length text.old }
    ensures { Wrote text.old at (decimal n) text.new result }
{
    if n < 10 {
        text[at] = 48 + n as u8;
        return at + 1;
    }
    let end = put_decimal(text, at, n / 10);
    text[end] = 48 + (n % 10) as u8;
    end + 1
}

// A number in decimal, and the byte after it.
fn put_number(text: &mut [u8], at: usize, n: u64, after: u8) -> usize
    requires { at + length (decimal n) < length text.old }
    ensures { Wrote text.old at (number_then n after) text.new result }
{
    let end = put_decimal(text, at, n);
    text[end] = after;
    end + 1
}

// A refusal's line, at the beginning.
pub fn put_refusal(text: &mut [u8], r: Refusal) -> usize
    requires { 64 ≤ length text.old }
    ensures { Wrote text.old 0 (refusal_line r) text.new result }
{
    let a = put(text, 0, b"refused ");
    let b = put_number(text, a, r.number(), b' ');
    put_number(text, b, r.place(), b'\n')
}

// The line of counts, at the beginning.
fn put_counts(text: &mut [u8], n: usize, k: usize) -> usize
    requires { 64 ≤ length text.old }
    ensures wrote { Wrote text.old 0 (count_line n k) text.new result }
    ensures upper_bound { result ≤ 64 }
{
    let a = put(text, 0, b"rows ");
    let b = put_number(text, a, n as u64, b' ');
    let c = put(text, b, b"crossings ");
    put_number(text, c, k as u64, b'\n')
}

// A row's line.
fn put_row(text: &mut [u8], at: usize, f: u16, r: u16, l: u16, k: u16) -> usize
    requires { at + 24 ≤ length text.old }
    ensures wrote { Wrote text.old at (row_line f r l k) text.new result }
    ensures upper_bound { result ≤ at + 24 }
{
    let a = put_number(text, at, f as u64, b' ');
    let b = put_number(text, a, r as u64, b' ');
    let c = put_number(text, b, l as u64, b' ');
    put_number(text, c, k as u64, b'\n')
}

// The lines of the first n rows of a table.
fn put_rows(text: &mut [u8], at: usize, table: &[u16], n: usize) -> usize
    requires room { at + 24 * n ≤ length text.old }
    requires rows_there { 4 * n ≤ length table.now }
    ensures wrote { Wrote text.old at (row_lines table.now n) text.new result }
    ensures upper_bound { result ≤ at + 24 * n }
{
    let mut end = at;
    for i in 0..n {
        let row = &table[4 * i..4 * i + 4];
        end = put_row(text, end, row[0], row[1], row[2], row[3]);
    }
    end
}

// A listing's lines, at the beginning: the counts, then a line for each of the n rows of the table.
pub fn put_listing(text: &mut [u8], table: &[u16], n: usize, k: usize) -> usize
    requires room { 64 + 24 * n ≤ length text.old }
    requires rows_there { 4 * n ≤ length table.now }
    ensures { Wrote text.old 0 (count_line n k ++ row_lines table.now n) text.new result }
{
    let end = put_counts(text, n, k);
    put_rows(text, end, table, n)
}
