ghost use Rattle.store_walk.specs.Laws.{OrderLaw, OriginOnCells, OriginInWalks, OriginOfDecided, AgreementLaw, WordLaw, WordStays, LateLaw, AbsentLaw, AbsentCause, DownCause};

/// What holds after every run of a store.
pub fn store_laws()
    ensures order { OrderLaw }
    ensures origin_on_cells { OriginOnCells }
    ensures origin_in_walks { OriginInWalks }
    ensures origin_of_decided { OriginOfDecided }
    ensures agreement { AgreementLaw }
    ensures word { WordLaw }
    ensures word_stays { WordStays }
    ensures late_agreement { LateLaw }
    ensures absence { AbsentLaw }
{}

/// Exactly where an ask of a run ends with absent, and exactly where with down.
pub fn ask_laws()
    ensures absent { AbsentCause }
    ensures down { DownCause }
{}
