// Laws of the table, each computed over all of it, as the contract of a function without a body.
ghost use Rattle.service_table.specs.Laws.{ServicesKeepTheirNumbers, StatesKeepTheirNumbers, StatusesKeepTheirNumbers, PayloadIsOfTheAnswering, PayloadNeedsARole, CryptographicByNumber, CryptographicNeedsARole, CryptographicIsApproved, OtherIsNotApproved, ShortMacIsNotApproved, NoMacNoLength, EachIsPermitted, ParametersAreTheOfficers, EntryGoesOnInEntry, KeysAreTheUsers, StatusIsShown, CryptographicIsTested, DigestsAreTested, MacsAreTested, OffPermits, InitPermits, SelfTestPermits, ApprovedPermits, ErrorPermits};
ghost use Rattle.service_table.specs.Laws.{WrappingIsTheOfficers, WrappingIsOneWay, GeneratorIsTheOfficers, OthersAreTested, OfficerPermits, UserPermits, EntryPermits, EachAnswersThese, TestsFailWhereDone, NoiseFailsWhereDrawn, KeysAreRefused, DomainsAreKept, FullSlotsAreRefused, ExportIsRefused, LengthsAreRefused, ForgeriesAreRefused, SlotlessSayNothingOfSlots, FailuresHaveTheirCodes, FailuresAreTold};

/// What the table is for. Each service, state and status is found by its number. The services that answer with data, and the
/// cryptographic ones, are permitted in a role alone; an approved use is one of a cryptographic service, of a MAC of at least four
/// bytes, and none with an IV that the module didn't make. Each cryptographic service has its known-answer test. Parameters are the
/// officer's to enter, to make at random, to wrap, to unwrap and to zeroise, and keys the user's to use on text. Each state permits
/// what it says and no more, and each status is an answer of the services that it says and of no other. A failure is found by its code.
pub fn table_laws()
    ensures services { ServicesKeepTheirNumbers }
    ensures states { StatesKeepTheirNumbers }
    ensures statuses { StatusesKeepTheirNumbers }
    ensures answering { PayloadIsOfTheAnswering }
    ensures payload { PayloadNeedsARole }
    ensures cryptographic { CryptographicByNumber }
    ensures in_roles { CryptographicNeedsARole }
    ensures uses { CryptographicIsApproved }
    ensures other_uses { OtherIsNotApproved }
    ensures short_macs { ShortMacIsNotApproved }
    ensures lengths { NoMacNoLength }
    ensures each { EachIsPermitted }
    ensures officers { ParametersAreTheOfficers }
    ensures wrapping { WrappingIsTheOfficers }
    ensures one_way { WrappingIsOneWay }
    ensures generator { GeneratorIsTheOfficers }
    ensures entry { EntryGoesOnInEntry }
    ensures users { KeysAreTheUsers }
    ensures shown { StatusIsShown }
    ensures tested { CryptographicIsTested }
    ensures digests { DigestsAreTested }
    ensures macs { MacsAreTested }
    ensures other_tests { OthersAreTested }
    ensures off { OffPermits }
    ensures init { InitPermits }
    ensures self_test { SelfTestPermits }
    ensures approved { ApprovedPermits }
    ensures officer_role { OfficerPermits }
    ensures user_role { UserPermits }
    ensures entering { EntryPermits }
    ensures error { ErrorPermits }
    ensures general { EachAnswersThese }
    ensures failed_tests { TestsFailWhereDone }
    ensures failed_noise { NoiseFailsWhereDrawn }
    ensures refused_keys { KeysAreRefused }
    ensures domains { DomainsAreKept }
    ensures full_slots { FullSlotsAreRefused }
    ensures exports { ExportIsRefused }
    ensures wrong_lengths { LengthsAreRefused }
    ensures forgeries { ForgeriesAreRefused }
    ensures slotless { SlotlessSayNothingOfSlots }
    ensures failures { FailuresHaveTheirCodes }
    ensures told { FailuresAreTold }
{}
