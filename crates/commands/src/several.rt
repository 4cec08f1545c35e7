//! The audit of several sessions: a line for each one after its name, and how many are clean; or an object for each.

ghost use Rattle.std.specs.Prelude.{◌≡◌, IfOk};
ghost use Rattle.command_texts.specs.Several.{IsListStatus, TellsOneUnread};
ghost use Rattle.text_access.specs.Names.{files_of};
ghost use Rattle.text_access.specs.Written.{BothGain};
ghost use Rattle.command_words.specs.Table.{several_names};
ghost use Rattle.commands.specs.Told.{EndsSeveral};

use crate::judging::{list_ask, listing_of};
use command_texts::{Console, Fault, perform_several};
use command_words::Several;
use judge_commands::AuditCommand;
use std::io::{Read, Write};
use std::thread::Threads;
use text_access::TextSource;

/// Audits several sessions in the way that the words ask for.
pub(crate) fn asked_several<
    'a,
    R: Threads + Sync,
    S: TextSource,
    I: Read + Send,
    O: Write,
    E: Write,
>(console: &mut Console<'_, R, S, I, O, E>, several: &Several<'a>) -> Result<u8, Fault<'a>>
where
    S::Text: Send,
    ensures known { IfOk result IsListStatus }
    ensures unread { IfOk result (λ status. status ≡ 3 → TellsOneUnread (E.contents console.old.errors) (E.contents console.new.errors)) }
    ensures told { EndsSeveral (several_names several.now) (files_of (S.bytes_of console.old.texts.now) (S.names_in console.old.texts.now)) (S.text_in console.old.texts.now) (O.contents console.old.output, E.contents console.old.errors) (O.contents console.new.output, E.contents console.new.errors) result }
    ensures gains { BothGain (O.contents console.old.output, E.contents console.old.errors) (O.contents console.new.output, E.contents console.new.errors) }
{
    let command = AuditCommand {
        rt: console.rt,
        ask: list_ask(several.lists),
    };
    let listing = listing_of(several.lists.form);
    perform_several(console, &command, listing, several.names.as_slice())
}
