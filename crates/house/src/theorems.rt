// What follows from the meaning alone, each a theorem that a contract names.
ghost use Rattle.house.specs.Seen.{WrittenWasLent, MissedIsNotLent, FaultsAtNothing, PageIsReached, PokesItsOwn};
ghost use Rattle.house.specs.Served.{RefusedIsUntouched, LaterIsExcused, DoneIsDrained};
ghost use Rattle.house.specs.Gone.{RecalledIsGone, ClosedIsGone, EndedIsGone};
ghost use Rattle.house.specs.Words.{HoldsLastWritten, HomeIsItsOwners, HomeStays};
ghost use Rattle.house.specs.Rows.{RowsPlay, PlayedIsExplained};

pub fn written_was_lent() -> u8
    ensures { WrittenWasLent }
{
    0
}

pub fn missed_is_not_lent() -> u8
    ensures { MissedIsNotLent }
{
    0
}

pub fn faults_at_nothing() -> u8
    ensures { FaultsAtNothing }
{
    0
}

pub fn page_is_reached() -> u8
    ensures { PageIsReached }
{
    0
}

pub fn pokes_its_own() -> u8
    ensures { PokesItsOwn }
{
    0
}

pub fn refused_is_untouched() -> u8
    ensures { RefusedIsUntouched }
{
    0
}

pub fn later_is_excused() -> u8
    ensures { LaterIsExcused }
{
    0
}

pub fn done_is_drained() -> u8
    ensures { DoneIsDrained }
{
    0
}

pub fn recalled_is_gone() -> u8
    ensures { RecalledIsGone }
{
    0
}

pub fn closed_is_gone() -> u8
    ensures { ClosedIsGone }
{
    0
}

pub fn ended_is_gone() -> u8
    ensures { EndedIsGone }
{
    0
}

pub fn holds_last_written() -> u8
    ensures { HoldsLastWritten }
{
    0
}

pub fn home_is_its_owners() -> u8
    ensures { HomeIsItsOwners }
{
    0
}

pub fn home_stays() -> u8
    ensures { HomeStays }
{
    0
}

pub fn rows_play() -> u8
    ensures { RowsPlay }
{
    0
}

pub fn played_is_explained() -> u8
    ensures { PlayedIsExplained }
{
    0
}
