//! Folders in the place of sessions: a folder is the session of the files that recorders left in it.

ghost use Rattle.std.specs.Prelude.{◌≡◌, [], ◌∷◌, IfOk};
ghost use Rattle.command_words.specs.declared.requests.Lacking.TheVariants.{Refused};
ghost use Rattle.session_commands.specs.Texts.{IsSessionText};
ghost use Rattle.text_access.specs.Written.{Gains};

use crate::found::joined;
use crate::gathering::gather_session;
use crate::gone::tell_name_gone;
use crate::performing::perform_session;
use command_texts::{Console, Fault, write_shown};
use command_words::Lacking;
use either::Either;
use migration_types::Session;
use recorder_files::read_file_name;
use std::alloc::Global;
use std::io;
use std::io::{Cursor, ErrorKind, Write};
use text_access::{TextSource, write_whole};

/// Where it is said why the files in a folder make no session.
pub trait ErrorSink {
    type Errors: Write + Drop;

    /// Returns what takes the words.
    fn errors(&self) -> Self::Errors;
}

/// The texts of a disk, with a session for each of its folders: that of the files that recorders left there. Such a session has the
/// text that `session` writes of the folder without `--cut`.
#[derive(Drop)]
pub struct WithFolders<D, W> {
    pub alloc: Global,
    pub disk: D,
    pub errors: W,
}

// Returns whether one of these is the name of a recorder's file.
fn has_file(names: &[String]) -> bool {
    for name in names {
        if read_file_name(name.as_bytes()).is_some() {
            return true;
        }
    }
    false
}

// Returns the name of the session's text in a folder that has one, and no file of a recorder, as far as it can be known.
fn session_in<D: TextSource>(disk: &D, alloc: Global, folder: &str) -> io::Result<Option<String>> {
    let names = disk.names(alloc, folder)?;
    if has_file(names.as_slice()) {
        return Ok(None);
    }
    let name = joined(alloc, folder, "session")?;
    match disk.text(name.as_str()) {
        Ok(_) => Ok(Some(name)),
        Err(error) => Err(error),
    }
}

// Writes a text, and a name as shown. Returns whether all of it was written.
#[tactic(auto, using(crate::proofs::Gained::front, crate::proofs::Gained::both))]
fn write_named<E: Write>(errors: &mut E, front: &[u8], name: &str) -> bool
    ensures { Gains (E.contents errors.old) (E.contents errors.new) }
{
    if !write_whole(errors, front) {
        return false;
    }
    write_shown(errors, name)
}

// Says how the session's text is named that is in a folder.
#[tactic(auto, using(crate::proofs::Gained::front, crate::proofs::Gained::both))]
fn tell_named<E: Write>(folder: &str, name: &str, errors: &mut E)
    ensures { Gains (E.contents errors.old) (E.contents errors.new) }
{
    if !write_named(errors, b"session: ", folder) {
        return;
    }
    if write_named(
        errors,
        b": it has a file session: to read that, name ",
        name,
    ) {
        write_whole(errors, b"\n");
    }
}

// Says how the session's text in a folder is named, if the folder has one and no file of a recorder.
#[tactic(auto, using(crate::proofs::Gained::same))]
pub(crate) fn tell_session_in<D: TextSource, E: Write>(
    disk: &D,
    alloc: Global,
    folder: &str,
    errors: &mut E,
)
    ensures { Gains (E.contents errors.old) (E.contents errors.new) }
{
    if let Ok(Some(name)) = session_in(disk, alloc, folder) {
        tell_named(folder, name.as_str(), errors);
    }
}

// Returns the text of the session of the files in a folder. The errors say what it lacks.
fn text_of<D: TextSource, E: Write + Drop>(
    disk: &D,
    alloc: Global,
    folder: &str,
    errors: E,
) -> io::Result<Vec<u8>>
    ensures { IfOk result (λ text. IsSessionText (D.names_in disk.now) (D.bytes_of disk.now) (folder.now ∷ []) Refused text.items) }
{
    let mut console = Console {
        rt: &(),
        alloc,
        texts: disk,
        input: io::empty(),
        output: Vec::new(alloc),
        errors,
    };
    match perform_session(&mut console, Lacking::Refused, &[folder]) {
        Ok(0) => Ok(console.output),
        // The text is held, so its output fails only if memory runs out.
        Err(Fault::Memory | Fault::Output(_, _)) => Err(io::Error::from(ErrorKind::OutOfMemory)),
        Ok(_) | Err(_) => {
            tell_session_in(disk, alloc, folder, &mut console.errors);
            Err(io::Error::from(ErrorKind::InvalidData))
        }
    }
}

impl<D: TextSource, W: ErrorSink> TextSource for WithFolders<D, W> {
    type Text = Either<D::Text, Cursor<Vec<u8>>>;

    ghost use Rattle.std.specs.Prelude.{[], ◌∷◌};
    ghost use Rattle.command_words.specs.declared.requests.Lacking.TheVariants.{Refused};
    ghost use Rattle.session_commands.specs.Texts.{IsSessionText};

    ghost bytes_of = { λ self name. D.bytes_of self.disk name };

    ghost names_in = { λ self folder. D.names_in self.disk folder };

    ghost text_in = { λ self name text. IsSessionText (D.names_in self.disk) (D.bytes_of self.disk) (name ∷ []) Refused text };

    fn text(&self, name: &str) -> io::Result<Self::Text> {
        match self.disk.text(name) {
            Ok(text) => Ok(Either::Left(text)),
            Err(error) => Err(error),
        }
    }

    fn session_text(&self, name: &str) -> io::Result<Self::Text> {
        match self.disk.names(self.alloc, name) {
            Ok(_) => match text_of(&self.disk, self.alloc, name, self.errors.errors()) {
                Ok(text) => Ok(Either::Right(Cursor::new(text))),
                Err(error) => Err(error),
            },
            Err(error) if error.kind() == ErrorKind::OutOfMemory => Err(error),
            Err(_) => self.text(name),
        }
    }

    fn session(&self, alloc: Global, name: &str) -> io::Result<Option<Session>> {
        let mut errors = self.errors.errors();
        match gather_session(alloc, &self.disk, name, &mut errors) {
            Ok(Some(session)) => {
                tell_name_gone(&self.disk, alloc, name, &mut errors)?;
                Ok(Some(session))
            }
            Ok(None) => Ok(None),
            Err(error) => {
                if error.kind() == ErrorKind::InvalidData {
                    tell_session_in(&self.disk, alloc, name, &mut errors);
                }
                Err(error)
            }
        }
    }

    fn stays(&self, name: &str) -> bool {
        self.disk.stays(name)
    }

    fn names(&self, alloc: Global, folder: &str) -> io::Result<Vec<String>> {
        self.disk.names(alloc, folder)
    }

    fn is_one(&self, folder: &str, other: &str) -> bool {
        self.disk.is_one(folder, other)
    }
}
