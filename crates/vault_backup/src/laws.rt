// Laws of backups, each the contract of a function without a body.
ghost use Rattle.vault_backup.specs.Laws.{RestoresWhatWasKept, BackupsHaveTheForm, FormsAreBounded, ParsesInOneWay, BackupsTellKeptSlotsAlone, AnswersInOneWay};

/// A backup that is restored into sixteen empty slots gives exactly the kept slots, field by field and byte by byte; the rows stay.
pub fn restores_what_was_kept()
    ensures { RestoresWhatWasKept }
{}

/// Every backup is of the form, with the kept slots' records and the right tag; what is of the form has 37 to 1,317 bytes and at most
/// sixteen records.
pub fn backups_have_the_form()
    ensures form { BackupsHaveTheForm }
    ensures bounds { FormsAreBounded }
{}

/// Bytes have one list of records and one tag at most.
pub fn parses_in_one_way()
    ensures { ParsesInOneWay }
{}

/// A backup tells of the kept slots alone: what stands in others and in the rows doesn't change it.
pub fn backups_tell_kept_slots_alone()
    ensures { BackupsTellKeptSlotsAlone }
{}

/// What restoring answers is determined by the vault, the keys and the bytes, so that each refusal comes exactly where its cause is the
/// first that holds; and so are the slots and rows that it leaves where it isn't refused.
pub fn answers_in_one_way()
    ensures { AnswersInOneWay }
{}
