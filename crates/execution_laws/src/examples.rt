ghost use Rattle.std.specs.Prelude.{◌≡◌, ◌-◌, ◌++◌, ◌∷◌, [], Some, None, List, true, false};
ghost use Rattle.nop_types.specs.declared.limits.TheConstants.{MAX_SERVED};
ghost use Rattle.nop_types.specs.declared.request.Request.{Request};
ghost use Rattle.nop_types.specs.declared.request.Entry.TheVariants.{Req};
ghost use Rattle.nop_types.specs.Lines.{Submit, Accept};
ghost use Rattle.nop_types.specs.Windows.{is_new, is_stale};
ghost use Rattle.nop_types.specs.Tables.{kept_for, account_with};
ghost use Rattle.nop_types.specs.Execution.{is_executed, exec, result_at};
ghost use Rattle.nop_types.specs.Histories.{history_of, answer_at};
ghost use Rattle.nop_types.specs.Legality.{Legal};
ghost use Rattle.execution_laws.specs.Legality.{Grounded};
ghost use Rattle.execution_laws.specs.Worked.{
  appending,
  request_of,
  first_request,
  second_request,
  worked_log,
  answered,
  echoed,
  account_of,
  crowd,
  retried_log,
  retried_lines,
  concurrent_lines,
  early_lines,
  wrong_lines,
  repeated_lines,
  swapped_lines,
};

/// A log worked by hand: its history, what its execution leaves, and each result and answer.
pub fn worked_log()
    ensures history { history_of worked_log
        ≡ first_request ∷ second_request ∷ request_of 1 100 30 ∷ [] }
    ensures host { (exec appending worked_log).host ≡ 10 ∷ 20 ∷ 30 ∷ [] }
    ensures kept_1 { kept_for (exec appending worked_log).table 1
        ≡ Some (account_of (answered 100 (10 ∷ 20 ∷ 30 ∷ []) ∷ []) 100) }
    ensures kept_2 { kept_for (exec appending worked_log).table 2
        ≡ Some (account_of (answered 1 (10 ∷ 20 ∷ []) ∷ []) 1) }
    ensures kept_3 { kept_for (exec appending worked_log).table 3 ≡ None }

    ensures slot_0 { result_at appending worked_log 0 ≡ None }
    ensures slot_1 { result_at appending worked_log 1 ≡ Some (10 ∷ []) }
    ensures slot_2 { result_at appending worked_log 2 ≡ None }
    ensures slot_3 { result_at appending worked_log 3 ≡ Some (10 ∷ 20 ∷ []) }
    ensures slot_4 { result_at appending worked_log 4 ≡ Some (10 ∷ []) }
    ensures slot_5 { result_at appending worked_log 5 ≡ Some (10 ∷ 20 ∷ 30 ∷ []) }
    ensures slot_6 { result_at appending worked_log 6 ≡ None }
    ensures slot_7 { result_at appending worked_log 7 ≡ None }

    ensures answer_0 { answer_at appending (history_of worked_log) 0 ≡ Some (10 ∷ []) }
    ensures answer_1 { answer_at appending (history_of worked_log) 1 ≡ Some (10 ∷ 20 ∷ []) }
    ensures answer_2 { answer_at appending (history_of worked_log) 2
        ≡ Some (10 ∷ 20 ∷ 30 ∷ []) }
    ensures answer_3 { answer_at appending (history_of worked_log) 3 ≡ None }
{}

/// After as many clients as are served, one more has no request executed; the others have.
pub fn clients_past_the_limit()
    ensures last { is_executed (crowd (MAX_SERVED - 1)) (request_of (MAX_SERVED - 1) 1 0) ≡ true }
    ensures past { is_executed (crowd MAX_SERVED) (request_of MAX_SERVED 1 0) ≡ false }
    ensures later { is_executed (crowd MAX_SERVED ++ Req (request_of MAX_SERVED 1 0) ∷ [])
        (request_of MAX_SERVED 2 0) ≡ false }
    ensures others { is_executed (crowd MAX_SERVED) (request_of 0 2 0) ≡ true }
{}

/// In a window of eight, an id seven behind the greatest is new, and one eight behind is stale.
/// Of an account results go in by their ids, and out where they are left behind.
pub fn window_of_eight()
    ensures within { is_new 8 (9 ∷ []) 2 ≡ true }
    ensures repeated { is_new 8 (2 ∷ 9 ∷ []) 2 ≡ false }
    ensures behind { is_new 8 (9 ∷ []) 1 ≡ false }
    ensures fresh { is_stale 8 (9 ∷ []) 2 ≡ false }
    ensures stale { is_stale 8 (9 ∷ []) 1 ≡ true }

    ensures first { account_with 8 None (echoed 9) ≡ account_of (echoed 9 ∷ []) 9 }
    ensures between { account_with 8 (Some (account_of (echoed 9 ∷ []) 9)) (echoed 3)
        ≡ account_of (echoed 3 ∷ echoed 9 ∷ []) 9 }
    ensures left_behind { account_with 8 (Some (account_of (echoed 3 ∷ echoed 9 ∷ []) 9))
        (echoed 11) ≡ account_of (echoed 9 ∷ echoed 11 ∷ []) 11 }
    ensures just_within { account_with 8 (Some (account_of (echoed 3 ∷ echoed 9 ∷ []) 9))
        (echoed 10) ≡ account_of (echoed 3 ∷ echoed 9 ∷ echoed 10 ∷ []) 10 }
{}

/// Legal lines: with their grounds in a log, and with the second of two requests executed first.
#[tactic(auto, using(crate::proofs::Worked::retried, crate::proofs::Worked::retried_legal, crate::proofs::Worked::concurrent))]
pub fn legal_lines()
    ensures grounds { Grounded appending retried_lines retried_log }
    ensures retried { Legal appending retried_lines (first_request ∷ []) }
    ensures concurrent { Legal appending concurrent_lines (second_request
        ∷ first_request ∷ []) }
{}

/// Lines that no history makes legal.
pub fn illegal_lines()
    ensures early { (history : List Request) → Legal appending early_lines history → ⊥ }
    ensures wrong { (history : List Request) → Legal appending wrong_lines history → ⊥ }
    ensures repeated { (history : List Request) → Legal appending repeated_lines history → ⊥ }
    ensures swapped { (history : List Request) → Legal appending swapped_lines history → ⊥ }
{}

/// Histories that are not legal: with a request not submitted, or twice, or without an accepted one.
#[tactic(auto, using(crate::proofs::Worked::unsubmitted, crate::proofs::Worked::doubled, crate::proofs::Worked::missing))]
pub fn illegal_histories()
    ensures unsubmitted { Legal appending [] (first_request ∷ []) → ⊥ }
    ensures doubled { Legal appending (Submit first_request ∷ [])
        (first_request ∷ first_request ∷ []) → ⊥ }
    ensures missing { Legal appending (Submit first_request ∷ Accept 1 1 (10 ∷ [])
        ∷ []) [] → ⊥ }
{}
