//! What holds of a follower over all its connections.

ghost use Rattle.std.specs.Prelude.{◌≡◌, ℕ, ℤ, Bool, List, Option, [], ◌++◌, ◌^◌, ◌<◌};
ghost use mathlib.Core.List.{IsPrefix};
ghost use Rattle.pgoutput.specs.declared.messages.relation.Relation.{Relation};
ghost use Rattle.pgoutput.specs.declared.published.Published.{Published};
ghost use Rattle.pgoutput.specs.Items.{Item, bytes_of_items, FitItems};
ghost use Rattle.client.specs.Law.{AreForward, GainedAll};
ghost use Rattle.follower.specs.Once.{EachOnce, before};
ghost use Rattle.follower.specs.declared.printing.line.Line.{Line};
ghost use Rattle.follower.specs.ResumePoint.{with_lines};
ghost use Rattle.follower.specs.Found.{BeginsOne, Finds, TellAll, bytes_in, nothing_kept};
ghost use Rattle.follower.specs.Lives.{EachBehind, Life, Lives, place_after_all, printed_over};
ghost use Rattle.follower.specs.Served.{AreServedLives, InLogOrder};
ghost use Rattle.follower.specs.Standing.{Standing, Deed, Connects, Does, Runs, Tells};
ghost use Rattle.follower.specs.Promise.{begun_at, printed_in, AreReceived, received_bytes};

/// Whatever servers send, wherever connections are cut, and whenever something is printed: what was printed, and then what wasn't
/// yet, came one after the other from where it began up to the position, each transaction once.
pub fn each_transaction_is_printed_once()
    ensures { (start : ℕ) (written kept sent : Option (List ℕ)) (deeds : List Deed) (now : Standing)
        (run : Runs (begun_at start written kept sent) deeds now) →
        EachOnce start
        (printed_in (begun_at start written kept sent) deeds now run
        ++ now.applier.subscriber.applied)
        now.applier.subscriber.position }
{}

/// Of a connection whose bytes begin a stream of transactions that end past their starts, all that stands whole in them was added
/// to what was printed before or waits for it, but for the transactions that stood below the position already.
pub fn no_transaction_is_lost()
    ensures { (printed : List Published) (old begun : Standing) (deeds : List Deed) (now : Standing)
        (run : Runs begun deeds now) (relation : ℕ → Relation)
        (items : List Item) (more : List ℕ) →
        Does Connects old begun → AreReceived deeds → FitItems relation items →
        AreForward items →
        received_bytes deeds ++ more ≡ bytes_of_items relation [] items →
        GainedAll relation (before printed begun.applier.subscriber)
        (received_bytes deeds) items
        (before (printed ++ printed_in begun deeds now run) now.applier.subscriber) }
{}

/// Over every list of runs, each ended or killed anywhere and begun anew after what the output held: what stands in the output came
/// one after the other, each once and whole.
pub fn each_transaction_stands_once_over_kills()
    ensures { (start : ℕ) (printed : List Published) (lives : List Life)
        (lived : Lives start printed lives) →
        EachBehind start printed → EachBehind start (printed_over start printed lives lived) }
{}

/// Over every list of runs whose servers keep to their protocol, wherever connections are cut, runs killed and memory runs out: what
/// stands in the output is a beginning of what the log publishes.
pub fn what_stands_is_a_beginning_of_what_is_published()
    ensures { (start : ℕ) (published printed : List Published) (lives : List Life)
        (lived : Lives start printed lives) →
        InLogOrder start published → IsPrefix printed published →
        AreServedLives published start start printed lives lived →
        IsPrefix (printed_over start printed lives lived) published }
{}

/// As a status is sent, all that was gained up to the position that it tells was printed, each transaction once, and all that came
/// to the output stands there for good.
pub fn no_acknowledgement_is_ahead()
    ensures { (start : ℕ) (written kept sent : Option (List ℕ)) (deeds : List Deed)
        (old new : Standing) (run : Runs (begun_at start written kept sent) deeds old)
        (clock : ℤ) (ask : Bool) (count : ℕ) →
        Does (Tells clock ask count) old new →
        EachOnce start (printed_in (begun_at start written kept sent) deeds old run)
        old.applier.subscriber.position
        × (new.kept ≡ new.written) }
{}

/// Of an output that holds whole transactions and notes, and after them a beginning of one more or nothing: a run finds the place
/// after the last whole one, and cuts off what stands after that.
pub fn a_run_goes_on_after_the_last_whole_one()
    ensures { (ts : List Published) (whole part : List Line) →
        TellAll ts whole → BeginsOne part → bytes_in (whole ++ part) < 2 ^ 64 →
        Finds (place_after_all 0 ts) (bytes_in whole) (bytes_in part)
        (with_lines nothing_kept (whole ++ part)) }
{}
