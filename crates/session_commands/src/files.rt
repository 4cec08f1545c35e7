//! The files of the logs, which each pass opens anew.

ghost use Rattle.std.specs.Prelude.{◌≡◌, [], IfErr, IfOk};
ghost use Rattle.recorder_files.specs.declared.files.FileFault.{FileFault as Why};
ghost use Rattle.recorder_files.specs.Said.{CameTo, IsFault};

use crate::found::FoundLogs;
use migration_types::LogName;
use recorder_files::{FileFault, FileReader, GatherFault, Party};
use std::alloc::Global;
use text_access::TextSource;
use walked_sessions::LogFiles;

/// The files of the logs, which each pass opens anew.
#[derive(Clone, Copy)]
pub(crate) struct OpenedLogs<'a, S> {
    pub(crate) texts: &'a S,
    pub(crate) logs: &'a FoundLogs,
}

/// Opens a file of a log, whose place among them this is, and reads its head.
#[tactic(auto, using(crate::proofs::OpenedFile::came_known))]
fn begun<S: TextSource>(
    alloc: Global,
    texts: &S,
    party: Party,
    path: &str,
    place: usize,
) -> Result<FileReader<S::Text>, GatherFault>
    ensures opened { IfOk result (λ file. CameTo party (S.bytes_of texts.now path.now) file []) }
    ensures refused { IfErr result (λ fault. (why : Why) × (fault ≡ GatherFault.File place why) × IsFault party (S.bytes_of texts.now path.now) why) }
{
    let Ok(text) = texts.text(path) else {
        return Err(GatherFault::File(place, FileFault::File));
    };
    match FileReader::open(alloc, party, text) {
        Ok(Some(file)) => Ok(file),
        Ok(None) => Err(GatherFault::File(place, FileFault::File)),
        Err(fault) => Err(GatherFault::File(place, fault)),
    }
}

impl<S: TextSource> LogFiles for OpenedLogs<'_, S> {
    type File = S::Text;

    ghost use Rattle.session_commands.specs.Files.{bytes_in};

    ghost bytes_of = { λ self log. bytes_in (S.bytes_of self.texts.now) self.logs.now log };

    fn open(&self, alloc: Global, log: LogName) -> Result<Vec<FileReader<S::Text>>, GatherFault> {
        let mut files = Vec::new(alloc);
        let paths = self.logs.log(Party::Of(log)).paths.as_slice();
        for place in 0..paths.len() {
            let path = paths[place].as_str();
            let file = begun(alloc, self.texts, Party::Of(log), path, place)?;
            match files.push(file) {
                Ok(()) => {}
                Err(_) => return Err(GatherFault::Memory),
            }
        }
        Ok(files)
    }
}
