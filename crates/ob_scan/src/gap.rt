//! Blanks and comments.

ghost use Rattle.std.specs.Prelude.{◌≡◌, ◌+◌, ◌<◌, ◌^◌, zero, length};
ghost use Rattle.ob_scan.specs.Scanning as spec;
ghost use Rattle.ob_scan.specs.Scanning.{HasRoom, Skips};
ghost use Rattle.ob_scan.specs.Gaps as gaps;
ghost use Rattle.ob_scan.specs.Gaps.{IsRoomy, Turns, gap_of};

use crate::bytes::is_blank;
use crate::fault::ScanFault;
use ob_tree::Pos;

/// A position in a gap, among its blanks and comments: how many comments are open there, and where
/// the outermost of them began.
#[derive(Clone, Copy)]
pub struct GapPosition {
    at: usize,
    depth: usize,
    start: Pos,
    here: Pos,
}

fn next_pos(pos: Pos, b: u8) -> Pos
    requires line { pos.line + 1 < 2 ^ 32 }
    requires col { pos.col + 1 < 2 ^ 32 }
    ensures { result ≡ spec.next_pos pos b }
{
    if b == b'\n' {
        Pos {
            line: pos.line + 1,
            col: 1,
        }
    } else {
        Pos {
            line: pos.line,
            col: pos.col + 1,
        }
    }
}

fn two_further(pos: Pos) -> Pos
    requires { pos.col + 2 < 2 ^ 32 }
    ensures { result ≡ spec.further pos 2 }
{
    Pos {
        line: pos.line,
        col: pos.col + 2,
    }
}

fn opens(a: u8, b: u8) -> bool
    ensures { result ≡ spec.opens a b }
{
    a == b'(' && b == b'*'
}

fn closes(a: u8, b: u8) -> bool
    ensures { result ≡ spec.closes a b }
{
    a == b'*' && b == b')'
}

fn outer_start(p: GapPosition) -> Pos
    ensures { result ≡ gaps.outer_start p }
{
    if p.depth == 0 { p.here } else { p.start }
}

// One byte further at the text's last byte.
fn last_turn(text: &[u8], p: GapPosition) -> Option<GapPosition>
    requires within { p.at + 1 ≡ length text.now }
    requires room { IsRoomy text.now p }
    ensures { Turns text.now p result }
{
    let a = text[p.at];
    if p.depth == 0 && !is_blank(a) {
        None
    } else {
        Some(GapPosition {
            at: p.at + 1,
            depth: p.depth,
            start: p.start,
            here: next_pos(p.here, a),
        })
    }
}

// One byte further, or over a comment's first or last symbol; none where a symbol begins.
fn pair_turn(text: &[u8], p: GapPosition) -> Option<GapPosition>
    requires within { p.at + 1 < length text.now }
    requires room { IsRoomy text.now p }
    ensures { Turns text.now p result }
{
    let a = text[p.at];
    let b = text[p.at + 1];
    if opens(a, b) {
        Some(GapPosition {
            at: p.at + 2,
            depth: p.depth + 1,
            start: outer_start(p),
            here: two_further(p.here),
        })
    } else if p.depth == 0 {
        if is_blank(a) {
            Some(GapPosition {
                at: p.at + 1,
                depth: p.depth,
                start: p.start,
                here: next_pos(p.here, a),
            })
        } else {
            None
        }
    } else if closes(a, b) {
        Some(GapPosition {
            at: p.at + 2,
            depth: p.depth - 1,
            start: p.start,
            here: two_further(p.here),
        })
    } else {
        Some(GapPosition {
            at: p.at + 1,
            depth: p.depth,
            start: p.start,
            here: next_pos(p.here, a),
        })
    }
}

// The same at any byte.
fn turn(text: &[u8], p: GapPosition) -> Option<GapPosition>
    requires within { p.at < length text.now }
    requires room { IsRoomy text.now p }
    ensures { Turns text.now p result }
{
    if text.len() - p.at < 2 {
        last_turn(text, p)
    } else {
        pair_turn(text, p)
    }
}

// How many bytes of blanks and comments there are, where one stands among them already, and where
// one stands behind them.
#[inline(never)]
fn through(text: &[u8], from: GapPosition) -> Result<(usize, Pos), ScanFault>
    requires { IsRoomy text.now from }
    ensures { Skips (gap_of text.now from) text.now result }
{
    let mut p = from;
    'gap: while p.at < text.len() {
        match turn(text, p) {
            Some(q) => p = q,
            None => return Ok((p.at, p.here)),
        }
    }
    if p.depth == 0 {
        Ok((p.at, p.here))
    } else {
        Err(ScanFault::Symbol { pos: p.start })
    }
}

// How many bytes of blanks and comments there are, and where one stands behind them. Blanks are
// passed here, and what begins with `(` is looked at apart, since it may be a comment.
#[inline(always)]
pub fn skip(text: &[u8], pos: Pos) -> Result<(usize, Pos), ScanFault>
    requires { HasRoom pos text.now }
    ensures { Skips (spec.behind zero pos pos text.now) text.now result }
{
    let mut at = 0;
    let mut here = pos;
    'blanks: while at < text.len() {
        let b = text[at];
        if !is_blank(b) {
            if b == b'(' {
                let from = GapPosition {
                    at,
                    depth: 0,
                    start: pos,
                    here,
                };
                return through(text, from);
            }
            return Ok((at, here));
        }
        here = next_pos(here, b);
        at += 1;
    }
    Ok((at, here))
}
