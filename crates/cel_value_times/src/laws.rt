//! Laws of the texts of times. Each is the contract of a function whose body is empty.
ghost use Rattle.std.specs.Prelude.{ℕ, ℤ, List, ◌≡◌, ◌↔◌, ◌<◌, ◌+ℤ◌, ◌*ℤ◌, pos, Some};
ghost use Rattle.jiff_core.specs.Calendar.{days_from_civil};
ghost use Rattle.cel_value_times.specs.Ranges.{IsDuration, IsSecond, IsOffset, earliest_second, latest_second};
ghost use Rattle.cel_value_times.specs.DurationTexts.{IsDurationText, duration_text};
ghost use Rattle.cel_value_times.specs.TimestampTexts.{IsTimestampText, IsPrintedTimestamp};
ghost use Rattle.cel_value_times.specs.TextFunctions.{duration_of, timestamp_of, timestamp_text, MeansInstant};

/// The printed text of a duration denotes that duration.
pub fn printed_durations_mean_themselves()
    ensures { (nanoseconds : ℤ) → IsDuration nanoseconds →
        IsDurationText (duration_text nanoseconds) nanoseconds }
{}

/// A text denotes at most one duration.
pub fn a_text_means_one_duration()
    ensures { (text : List ℕ) (a b : ℤ) → IsDurationText text a → IsDurationText text b → a ≡ b }
{}

/// The printed text of a timestamp denotes a timestamp with the same instant and offset.
pub fn printed_timestamps_mean_themselves()
    ensures { (text : List ℕ) (second : ℤ) (nanoseconds : ℕ) (offset : ℤ) →
        nanoseconds < 1_000_000_000 → IsSecond second → IsOffset offset →
        IsPrintedTimestamp text second nanoseconds offset →
        IsTimestampText text second nanoseconds offset }
{}

/// A text denotes at most one timestamp.
pub fn a_text_means_one_timestamp()
    ensures { (text : List ℕ) (a b : ℤ) (m n : ℕ) (o p : ℤ) →
        IsTimestampText text a m o → IsTimestampText text b n p → (a ≡ b) × (m ≡ n) × (o ≡ p) }
{}

/// A timestamp has one printed text.
pub fn a_timestamp_has_one_printed_text()
    ensures { (a b : List ℕ) (second : ℤ) (nanoseconds : ℕ) (offset : ℤ) →
        IsPrintedTimestamp a second nanoseconds offset →
        IsPrintedTimestamp b second nanoseconds offset → a ≡ b }
{}

/// `duration_of` gives exactly the duration that a text denotes.
pub fn duration_of_is_what_a_text_means()
    ensures { (text : List ℕ) (nanoseconds : ℤ) →
        (duration_of text ≡ Some nanoseconds) ↔ IsDurationText text nanoseconds }
{}

/// `timestamp_of` gives exactly the timestamp that a text denotes.
pub fn timestamp_of_is_what_a_text_means()
    ensures { (text : List ℕ) (instant offset : ℤ) →
        (timestamp_of text ≡ Some (instant, offset)) ↔ MeansInstant text instant offset }
{}

/// `timestamp_text` gives the printed text of a timestamp.
pub fn timestamp_text_is_what_is_printed()
    ensures { (text : List ℕ) (second : ℤ) (nanoseconds : ℕ) (offset : ℤ) →
        nanoseconds < 1_000_000_000 → IsPrintedTimestamp text second nanoseconds offset →
        text ≡ timestamp_text (second *ℤ pos 1_000_000_000 +ℤ pos nanoseconds) offset }
{}

/// The seconds in range are those of the years 1 to 9999.
pub fn the_range_is_the_years_1_to_9999()
    ensures first { days_from_civil (pos 1) 1 1 *ℤ pos 86_400 ≡ earliest_second }
    ensures last { days_from_civil (pos 9999) 12 31 *ℤ pos 86_400 +ℤ pos 86_399 ≡ latest_second }
{}
