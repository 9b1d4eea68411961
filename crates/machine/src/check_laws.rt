// What is true of checks, and of offers that are skipped, with no code.
ghost use Rattle.machine.specs.CheckLaws.{ChecksHaveOneEffect, ChecksShowWhatHolds, MadeChecksCount, SkippedOffersAreNotDue};

/// A check shows the offer and the minimum that then hold, and two that heard the same have one effect. After one that was
/// made, also one that no link answered, no check stands before the next start.
pub fn checks_count()
    ensures show { ChecksShowWhatHolds }
    ensures one { ChecksHaveOneEffect }
    ensures count { MadeChecksCount }
{}

/// An offer that was skipped does not stand before a start.
pub fn skipped_offers_are_not_due()
    ensures { SkippedOffersAreNotDue }
{}
