ghost use Rattle.http_head.specs.Laws.{BadStays, CompleteIsHead, CompleteStays, HeadAlone, HeadIsOne, OthersByLines};

/// What holds of every reading of bytes: they are complete exactly where a prefix is a request head of at most 64 field
/// lines, that prefix is the only one, and the head stays the same whatever follows it, and where nothing follows.
pub fn readings()
    ensures exact { CompleteIsHead }
    ensures others { OthersByLines }
    ensures one { HeadIsOne }
    ensures stays { CompleteStays }
    ensures bad { BadStays }
    ensures alone { HeadAlone }
{}
