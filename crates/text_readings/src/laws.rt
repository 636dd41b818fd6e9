// How texts read.

ghost use Rattle.text_readings.specs.Readings.{EveryTextReads, TextsReadOneWay};

/// Each text reads in some way, under any limits: as a tree that the grammar gives it, or as the
/// fault that is the text's. It does nothing: its contract is the law.
pub fn every_text_reads()
    ensures { EveryTextReads }
{}

/// Two readings of one text under one limit are the same. It does nothing: its contract is the law.
pub fn texts_read_one_way()
    ensures { TextsReadOneWay }
{}
