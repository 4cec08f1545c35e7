//! Laws about a command's answer to the text that another one wrote.

ghost use Rattle.std.specs.Prelude.{◌≡◌, ℕ, List};
ghost use Rattle.judged_texts.specs.declared.audit_part.AuditPart.{AuditPart as Asked};
ghost use Rattle.command_texts.specs.Cutting.{IsCutAtEnd};
ghost use Rattle.session_answers.specs.Judged.{IsJudged, Judged, judged_status};
ghost use Rattle.judge_commands.specs.Answers.{IsAuditAnswer, IsVerdictAnswer};
ghost use Rattle.host_commands.specs.Migrations.{IsMigrateAnswer};
ghost use Rattle.host_commands.specs.Steps.{IsStepsAnswer};
ghost use Rattle.commands.specs.Shown.{SpellsMigrated};

use audit_model::certified_is_safe;
use cert_text::cert_texts_are_unambiguous;
use session_log::session_texts_are_unambiguous;

/// A law: if `migrate` ends with status 0, it writes the text of a session followed by that of its certificate. So
/// `check`, which cuts them apart as it cuts an input, says `yes`, and `audit` says that the session is clean. Runs
/// nothing.
pub fn migrations_are_judged_yes()
    ensures judged { (script text first second answer : List ℕ) (status : ℕ) → IsMigrateAnswer script text 0 → IsCutAtEnd text first second → IsVerdictAnswer first second answer status → status ≡ 0 }
    ensures clean { (wanted : Asked) (script text first second answer : List ℕ) (status : ℕ) → IsMigrateAnswer script text 0 → IsCutAtEnd text first second → IsAuditAnswer wanted first answer status → status ≡ 0 }
{
    cert_texts_are_unambiguous();
}

/// A law: a session that `steps` writes is clean. So `audit` reports it as clean, and `certify` writes its certificate.
/// Runs nothing.
pub fn recorded_sessions_are_clean()
    ensures { (wanted : Asked) (script events session text : List ℕ) (status : ℕ) → IsStepsAnswer script events session 0 → IsAuditAnswer wanted session text status → status ≡ 0 }
{}

/// A law: a text that is judged clean spells one session, and what a right certificate promises holds for it. Its logs
/// have a merging, and in every merging, each read or write after handover finds its page resident, each read gives
/// what one machine that never moved gives, each page is placed at most once, and before any read, write or release of
/// it at the target, and a released page is never sent and comes back as zeros. Runs nothing.
pub fn clean_sessions_are_migrated()
    ensures { (session : List ℕ) (judged : Judged) → IsJudged session judged → judged_status judged ≡ 0 → SpellsMigrated session }
{
    session_texts_are_unambiguous();
    certified_is_safe();
}
