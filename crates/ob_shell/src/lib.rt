//! The session: what the program does, and what that means.
#![tactic(auto)]

ghost use Rattle.std.specs.Prelude.{◌⊎◌, ◌≡◌, ◌<◌, true, [], map, Some, None};
ghost use Rattle.ob_words.specs.declared.asked.Settings.{Settings as TheSettings};
ghost use Rattle.ob_words.specs.Settings.{settings_of};
ghost use Rattle.ob_shell_model.specs.Session.{bytes, Ends};
ghost use Rattle.ob_shell_model.specs.Library.{Library};
ghost use Rattle.ob_shell_model.specs.Headline.{Headline, Stands};
ghost use Rattle.ob_shell_model.specs.OneAge.{StandsInOneAge};
ghost use Rattle.ob_shell_model.specs.Pieces.{WritesPieces};
ghost use Rattle.ob_shell_session.specs.Stand.{Pieces};
ghost use Rattle.ob_shell_session.specs.Session.{Causes};

use ob_compile::Compiler;
use ob_io::{Folder, Sink, Source};
use ob_shell_session::do_all;
use std::alloc::Global;

/// Does all that the program does: the lines of a script over the files of a folder, into a sink.
/// The script is read by pieces of 4,096 bytes, and a line is done when its byte 10 has come, or
/// the script's end. The sink is flushed after each line.
///
/// The status is
/// - 0 where all lines were done, and 1 where all were read and one was refused, unknown or
///   stopped,
/// - 2 where the words are refused; then nothing is read or written,
/// - 3, 4 and 6 only where the script, the sink or the folder failed and its count of faults rose,
/// - 5 at a want of memory: of the line that it cuts, nothing is done, or the first line of a demo is
///   printed, or the first compiles of a make are done, whole and with their text,
/// - 7 exactly where a line has more than 1,024 bytes or the script more than 1,048,576, and none
///   of 2 to 6 came before: the lines before that line are done, and in it nothing is.
///
/// Beside what it does by the bytes of files, `headline` says what that means: over files that any
/// earlier runs have left, so that some library of builds keeps them, the bytes written are those
/// that the language's meaning gives the loaded modules' sources, taken afresh together.
pub fn session<F: Folder, I: Source, O: Sink>(
    alloc: Global,
    words: &[String],
    folder: &mut F,
    script: &mut I,
    out: &mut O,
) -> u8
    // Over objects that tell what they hold: with status 0, 1 and 7 the bytes added, the files and
    // the status are the model's; with 3 to 6 those of so many whole lines, and of the next one
    // a front of the text and the first of the changes.
    ensures ends { (s : TheSettings) → settings_of (map (λ w. w.bytes.items) words.now) ≡ Some s → I.tells script.old ≡ true → F.tells folder.old ≡ true → O.tells out.old ≡ true → Ends (bytes s (F.files folder.old)) (O.taken out.old) (O.taken out.new) (F.files folder.old) (F.files folder.new) (I.left script.old) result }
    // With status 3 the lines done are exactly those whose byte 10 was taken.
    ensures pieces { (s : TheSettings) → settings_of (map (λ w. w.bytes.items) words.now) ≡ Some s → I.tells script.old ≡ true → F.tells folder.old ≡ true → O.tells out.old ≡ true → result ≡ 3 → Pieces s (O.taken out.old) (O.taken out.new) (F.files folder.old) (I.left script.old) (I.left script.new) }
    ensures causes { Causes (I.faults script.old) (I.faults script.new) (O.faults out.old) (O.faults out.new) (F.faults folder.old) (F.faults folder.new) result }
    ensures words { settings_of (map (λ w. w.bytes.items) words.now) ≡ None → (result ≡ 2) ⊎ (result ≡ 5) }
    ensures refused { result ≡ 2 → settings_of (map (λ w. w.bytes.items) words.now) ≡ None }
    ensures untouched { settings_of (map (λ w. w.bytes.items) words.now) ≡ None → (script.new ≡ script.old) × (out.new ≡ out.old) × (folder.new ≡ folder.old) }
    ensures read { I.tells script.old ≡ true → result < 2 → I.left script.new ≡ [] }
    // Where the files keep a library, and no two of the texts of its builds, and of those that the
    // lines make, have one print unless they are the same: what is written, answered and left is
    // what the meaning of the builds' sources says, whole or cut short, and the loaded sources,
    // taken afresh together, are a well formed program at each line.
    ensures headline { (s : TheSettings) → settings_of (map (λ w. w.bytes.items) words.now) ≡ Some s → I.tells script.old ≡ true → F.tells folder.old ≡ true → O.tells out.old ≡ true → (l : Library) → Stands s (F.files folder.old) l (I.left script.old) → Headline s (O.taken out.old) (O.taken out.new) (F.files folder.old) (F.files folder.new) l (I.left script.old) result }
    // So are the lines done with status 3.
    ensures headline_pieces { (s : TheSettings) → settings_of (map (λ w. w.bytes.items) words.now) ≡ Some s → I.tells script.old ≡ true → F.tells folder.old ≡ true → O.tells out.old ≡ true → (l : Library) → Stands s (F.files folder.old) l (I.left script.old) → result ≡ 3 → WritesPieces s (O.taken out.old) (O.taken out.new) (F.files folder.old) l (I.left script.old) (I.left script.new) }
    // So it is, with nothing asked of prints, where all that the session compares is of one age: each
    // use keeps the very text that its object has by now.
    ensures one_age { (s : TheSettings) → settings_of (map (λ w. w.bytes.items) words.now) ≡ Some s → I.tells script.old ≡ true → F.tells folder.old ≡ true → O.tells out.old ≡ true → (l : Library) → StandsInOneAge s (F.files folder.old) l (I.left script.old) → Headline s (O.taken out.old) (O.taken out.new) (F.files folder.old) (F.files folder.new) l (I.left script.old) result }
{
    let mut compiler = Compiler::new(alloc);
    do_all(alloc, words, folder, &mut compiler, script, out)
}
