//! The words of a line of a script.

ghost use Rattle.std.specs.Prelude.{◌≡◌, ◌<◌, ◌∷◌, ◌≤◌, ◌+◌, ◌-◌, ◌*◌, ◌++◌, [], ◌&&◌, true, false, ℕ, List, ◌||◌, ◌^◌, IfNone, length, codes, take, drop, position, IfSome, MatchOption, min, nat_lt, nat_le, Some};
ghost use Rattle.std.specs.List.{list_all};
ghost use Rattle.ob_parse_grammar.specs.Identifiers.{is_letter, is_letter_or_digit, is_identifier};
ghost use Rattle.ob_shell_lines.specs.Lines.{lines_of, words_of, line_of, is_blank, name_byte, is_file_name, when, is_digit, is_first_digit, up_to_sixty, number_if, count_of, demo_line, command_line, dotted, is_dot, line_of_two, line_of_three, line_of_words, without_return, passes, Compile, Compare, Check, Show, Make, Command};
ghost use Rattle.ob_shell_lines.specs.Views.{line_view};
ghost use Rattle.ob_shell_lines.specs.Splits.{starts_blank, FirstLine, Stops, GoesOn, Behind};

use ob_tree::Name;

/// What a line of a script says.
#[derive(Clone, Copy)]
pub enum LineWords<'a> {
    /// Compiles a file.
    Compile(&'a str),
    /// Compares two symbol files.
    Compare(&'a str, &'a str),
    /// Compares the uses of a module with the present interfaces.
    Check(Name),
    /// Shows the interface of a module.
    Show(Name),
    /// Compiles what is stale, up to a module.
    Make(Name),
    /// Runs a demo of so many modules, 1 to 60.
    Demo(u32),
    /// Runs a command of a module.
    Command(Name, Name),
    /// Anything else.
    Unknown,
    /// Blanks alone.
    Nothing,
}

// WORDS

fn is_blank(b: u8) -> bool
    ensures { result ≡ is_blank b }
{
    b == b' ' || b == b'\t'
}

// A text from its first byte on that is no blank.
#[tactic(auto, using(crate::proofs::Words::words_skip, crate::proofs::Words::words_blank, crate::proofs::Words::starts_drop))]
fn without_blanks(text: &[u8]) -> &[u8]
    ensures same { words_of result.now ≡ words_of text.now }
    ensures begins { starts_blank result.now ≡ false }
{
    for i in 0..text.len() {
        if !is_blank(text[i]) {
            let (_, rest) = text.split_at(i);
            return rest;
        }
    }
    &[]
}

// The word that a text begins with, and the bytes behind it.
#[tactic(auto, using(crate::proofs::Words::words_take, crate::proofs::Words::words_last))]
fn first_word(text: &[u8]) -> (&[u8], &[u8])
    requires some { 0 < length text.now }
    requires begins { starts_blank text.now ≡ false }
    ensures { words_of text.now ≡ result.0.now ∷ words_of result.1.now }
{
    for i in 0..text.len() {
        if is_blank(text[i]) {
            return text.split_at(i);
        }
    }
    (text, &[])
}

// The first word of a text, and the bytes behind it.
#[tactic(auto, using(crate::proofs::Words::no_words))]
fn next_word(text: &[u8]) -> Option<(&[u8], &[u8])>
    ensures { MatchOption result (words_of text.now ≡ []) (λ p. words_of text.now ≡ p.0.now ∷ words_of p.1.now) }
{
    let rest = without_blanks(text);
    if rest.is_empty() {
        return None;
    }
    Some(first_word(rest))
}

// NAMES

fn is_letter(b: u8) -> bool
    ensures { result ≡ is_letter b }
{
    (b'A' <= b && b <= b'Z') || (b'a' <= b && b <= b'z')
}

fn is_letter_or_digit(b: u8) -> bool
    ensures { result ≡ is_letter_or_digit b }
{
    is_letter(b) || (b'0' <= b && b <= b'9')
}

fn is_name_byte(b: u8) -> bool
    ensures { result ≡ name_byte b }
{
    is_letter_or_digit(b) || b == b'.'
}

fn are_letters_or_digits(word: &[u8]) -> bool
    ensures { result ≡ list_all is_letter_or_digit word.now }
{
    word.iter().all(|b| is_letter_or_digit(*b))
}

fn are_name_bytes(word: &[u8]) -> bool
    ensures { result ≡ list_all name_byte word.now }
{
    word.iter().all(|b| is_name_byte(*b))
}

fn is_letter_with(first: u8, rest: &[u8]) -> bool
    ensures { result ≡ is_identifier (first ∷ rest.now) }
{
    is_letter(first) && are_letters_or_digits(rest) && rest.len() < 64
}

fn is_identifier(word: &[u8]) -> bool
    ensures { result ≡ is_identifier word.now }
{
    match word {
        [] => false,
        [first, rest @ ..] => is_letter_with(*first, rest),
    }
}

fn is_name_with(first: u8, rest: &[u8]) -> bool
    ensures { result ≡ is_file_name (first ∷ rest.now) }
{
    is_letter_or_digit(first) && are_name_bytes(rest) && rest.len() < 80
}

fn is_file_name(word: &[u8]) -> bool
    ensures { result ≡ is_file_name word.now }
{
    match word {
        [] => false,
        [first, rest @ ..] => is_name_with(*first, rest),
    }
}

// WHAT A LINE SAYS

// The name of a file as a text.
#[tactic(auto, using(crate::proofs::Names::name_utf8))]
fn text_of(file: &[u8]) -> &str
    requires { is_file_name file.now ≡ true }
    ensures { result.now ≡ file.now }
{
    match str::from_utf8(file) {
        Ok(name) => name,
        Err(_) => unreachable!(),
    }
}

fn compile_words(file: &[u8]) -> LineWords<'_>
    ensures { line_view result ≡ when (is_file_name file.now) (Compile file.now) }
{
    if is_file_name(file) {
        LineWords::Compile(text_of(file))
    } else {
        LineWords::Unknown
    }
}

fn compare_words<'a>(old: &'a [u8], new: &'a [u8]) -> LineWords<'a>
    ensures { line_view result ≡ when (is_file_name old.now && is_file_name new.now) (Compare old.now new.now) }
{
    if is_file_name(old) && is_file_name(new) {
        LineWords::Compare(text_of(old), text_of(new))
    } else {
        LineWords::Unknown
    }
}

fn check_words<'a>(name: &[u8]) -> LineWords<'a>
    ensures { line_view result ≡ when (is_identifier name.now) (Check name.now) }
{
    if is_identifier(name) {
        LineWords::Check(Name::new(name))
    } else {
        LineWords::Unknown
    }
}

fn show_words<'a>(name: &[u8]) -> LineWords<'a>
    ensures { line_view result ≡ when (is_identifier name.now) (Show name.now) }
{
    if is_identifier(name) {
        LineWords::Show(Name::new(name))
    } else {
        LineWords::Unknown
    }
}

fn make_words<'a>(name: &[u8]) -> LineWords<'a>
    ensures { line_view result ≡ when (is_identifier name.now) (Make name.now) }
{
    if is_identifier(name) {
        LineWords::Make(Name::new(name))
    } else {
        LineWords::Unknown
    }
}

fn command_words<'a>(name: &[u8], command: &[u8]) -> LineWords<'a>
    ensures { line_view result ≡ command_line name.now command.now }
{
    if is_identifier(name) && is_identifier(command) {
        LineWords::Command(Name::new(name), Name::new(command))
    } else {
        LineWords::Unknown
    }
}

fn is_digit(b: u8) -> bool
    ensures { result ≡ is_digit b }
{
    b'0' <= b && b <= b'9'
}

fn is_first_digit(b: u8) -> bool
    ensures { result ≡ is_first_digit b }
{
    b'1' <= b && b <= b'9'
}

fn up_to_sixty(number: u32) -> Option<u32>
    ensures { result ≡ up_to_sixty number }
{
    if number <= 60 { Some(number) } else { None }
}

fn one_digit(a: u8) -> Option<u32>
    ensures { result ≡ count_of (a ∷ []) }
{
    if is_first_digit(a) {
        up_to_sixty(u32::from(a) - 48)
    } else {
        None
    }
}

fn two_digits(a: u8, b: u8) -> Option<u32>
    ensures { result ≡ count_of (a ∷ b ∷ []) }
{
    if is_first_digit(a) && is_digit(b) {
        up_to_sixty((u32::from(a) - 48) * 10 + (u32::from(b) - 48))
    } else {
        None
    }
}

fn count_of(word: &[u8]) -> Option<u32>
    ensures { result ≡ count_of word.now }
{
    match word {
        [] => None,
        [a] => one_digit(*a),
        [a, b] => two_digits(*a, *b),
        [_, _, _, ..] => None,
    }
}

fn demo_words<'a>(word: &[u8]) -> LineWords<'a>
    ensures { line_view result ≡ demo_line (count_of word.now) }
{
    match count_of(word) {
        None => LineWords::Unknown,
        Some(count) => LineWords::Demo(count),
    }
}

fn dot_of(word: &[u8]) -> Option<usize>
    ensures finds { result ≡ position is_dot word.now }
    ensures within { IfSome result (λ i. i < length word.now) }
{
    word.iter().position(|b| *b == b'.')
}

fn dotted_words<'a>(word: &[u8]) -> LineWords<'a>
    ensures { line_view result ≡ dotted word.now (position is_dot word.now) }
{
    let Some(i) = dot_of(word) else {
        return LineWords::Unknown;
    };
    let (name, _) = word.split_at(i);
    let (_, command) = word.split_at(i + 1);
    command_words(name, command)
}

fn two_words<'a>(word: &[u8], other: &'a [u8]) -> LineWords<'a>
    ensures { line_view result ≡ line_of_two word.now other.now }
{
    if word == b"compile".as_slice() {
        compile_words(other)
    } else if word == b"check".as_slice() {
        check_words(other)
    } else if word == b"show".as_slice() {
        show_words(other)
    } else if word == b"make".as_slice() {
        make_words(other)
    } else if word == b"demo".as_slice() {
        demo_words(other)
    } else {
        LineWords::Unknown
    }
}

fn three_words<'a>(word: &[u8], old: &'a [u8], new: &'a [u8]) -> LineWords<'a>
    ensures { line_view result ≡ line_of_three word.now old.now new.now }
{
    if word == b"compare".as_slice() {
        compare_words(old, new)
    } else {
        LineWords::Unknown
    }
}

// A line without the byte 13 at its end.
fn without_return(line: &[u8]) -> &[u8]
    ensures { result.now ≡ without_return line.now }
{
    if !line.is_empty() && line[line.len() - 1] == b'\r' {
        let (front, _) = line.split_at(line.len() - 1);
        return front;
    }
    line
}

// What the words of a text say.
fn words_in(text: &[u8]) -> LineWords<'_>
    ensures { line_view result ≡ line_of_words (words_of text.now) }
{
    let Some((word, rest)) = next_word(text) else {
        return LineWords::Nothing;
    };
    let Some((other, rest)) = next_word(rest) else {
        return dotted_words(word);
    };
    let Some((third, rest)) = next_word(rest) else {
        return two_words(word, other);
    };
    match next_word(rest) {
        None => three_words(word, other, third),
        Some(_) => LineWords::Unknown,
    }
}

/// What a line says: its bytes without the byte 10 that ends it, and perhaps with a byte 13 at
/// their end.
#[tactic(auto, unfolding(crate::specs::Lines::line_of))]
pub fn words_of(line: &[u8]) -> LineWords<'_>
    ensures { line_view result ≡ line_of line.now }
{
    words_in(without_return(line))
}

// LINES

/// The first line, and the bytes behind it: a line ends at a byte 10, or at the end.
#[tactic(auto, using(crate::proofs::Split::first_ended, crate::proofs::Split::first_open))]
fn first_line(bytes: &[u8]) -> (&[u8], &[u8])
    requires { 0 < length bytes.now }
    ensures line { FirstLine bytes.now result.0.now result.1.now }
    ensures within { length result.0.now ≤ length bytes.now }
{
    for i in 0..bytes.len() {
        if bytes[i] == b'\n' {
            let (line, _) = bytes.split_at(i);
            let (_, rest) = bytes.split_at(i + 1);
            return (line, rest);
        }
    }
    (bytes, &[])
}

// Whether a line passes a limit: it begins behind so many bytes of a script, and has so many.
fn passes(total: usize, at: usize, len: usize) -> bool
    requires total { total < 2 ^ 63 }
    requires at { at + len ≤ total }
    ensures { result ≡ (nat_lt 1024 len || nat_lt 1048576 (min (at + len + 1) total)) }
{
    len > 1024 || (at + len + 1).min(total) > 1_048_576
}

/// The next line of a script of which these bytes are left, and the bytes behind it. None where
/// it passes a limit: 1,024 bytes of a line, 1,048,576 of a script.
#[tactic(auto, using(crate::proofs::Limits::next_stops, crate::proofs::Limits::next_goes_on, crate::proofs::Limits::next_fits, crate::proofs::Limits::next_less))]
pub fn next_line(total: usize, rest: &[u8]) -> Option<(&[u8], &[u8])>
    requires some { 0 < length rest.now }
    requires part { length rest.now ≤ total }
    requires total { total < 2 ^ 63 }
    ensures stops { (more : List ℕ) → Behind total more → IfNone result (Stops (total + length more) (total - length rest.now) (lines_of (rest.now ++ more))) }
    ensures goes_on { (more : List ℕ) → Behind total more → IfSome result (λ p. GoesOn (total + length more) (total - length rest.now) (lines_of (rest.now ++ more)) p.0.now (total - length p.1.now) (lines_of (p.1.now ++ more))) }
    ensures less { IfSome result (λ p. length p.1.now < length rest.now) }
    ensures fits { IfSome result (λ p. total - length p.1.now ≤ 1048576) }
{
    let (line, after) = first_line(rest);
    if passes(total, total - rest.len(), line.len()) {
        return None;
    }
    Some((line, after))
}
