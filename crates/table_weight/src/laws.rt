// What holds of all tables' weights.
ghost use Rattle.table_weight.specs.Laws.{LightenOthers, MigratedDataWeigh, StayTables, WeighAsInstalled, WeighAsShown, WeighWithData, WeighWithGroup, WeighWithKey, WeighWithRelease};

/// A law: tables weigh what the machine says of their views and applications.
pub fn tables_weigh_as_shown()
    ensures { WeighAsShown }
{}

/// A law: what holds of all tables holds after a change that fits.
pub fn changes_keep_tables()
    ensures { StayTables }
{}

/// A law: after a change that fits tables weigh what a refusal for want of room compares, and where
/// nothing comes that weighs they weigh no more than before.
pub fn changed_tables_weigh()
    ensures with_key { WeighWithKey }
    ensures with_data { WeighWithData }
    ensures with_group { WeighWithGroup }
    ensures with_release { WeighWithRelease }
    ensures as_installed { WeighAsInstalled }
    ensures others { LightenOthers }
{}

/// A law: the data files of a release that is installed weigh what a refusal of it compares.
pub fn migrated_data_weigh()
    ensures { MigratedDataWeigh }
{}
