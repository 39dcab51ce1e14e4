//! Transcripts of which all results were noted are read as `transcript_reader` reads them.

ghost use Rattle.std.specs.Prelude.{◌≡◌, ℕ, Bool, List, Option, length};
ghost use Rattle.transcript_reader.specs.Reading as transcripts;
ghost use Rattle.transcript_reader.specs.Steps.{SoFar};
ghost use Rattle.transcript_reader.specs.Transcripts.{transcript_lines};
ghost use Rattle.unnoted_reader.specs.Reading.{IsTranscript};
ghost use Rattle.unnoted_reader.specs.Unnoted.{AllNoted, AllUnmarked};

/// Where no line has a `?`, the bytes themselves spell the transcript, and no claim has a mark.
pub fn noted_is_read_as_ever()
    ensures read { (before left : Option (List ℕ)) (s : SoFar) (marks : List Bool)
        (read : IsTranscript before left s marks) → AllNoted read.texts
        → transcripts.IsTranscript before left s (length (transcript_lines read.transcript)) }
    ensures marks { (before left : Option (List ℕ)) (s : SoFar) (marks : List Bool)
        (read : IsTranscript before left s marks) → AllNoted read.texts → AllUnmarked marks }
{}
