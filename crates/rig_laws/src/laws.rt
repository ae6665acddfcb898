//! Laws of the definitions, each a function without a body that carries it.

ghost use Rattle.std.specs.Prelude.{◌≡◌, ◌++◌, ℕ, Bool, List, [], true, false};
ghost use Rattle.rig_model.specs.declared.jobs.JobId.{JobId};
ghost use Rattle.rig_model.specs.config.Roster.{is_tenant, Rig};
ghost use Rattle.rig_model.specs.Base.{IsBase, new_base, Setting};
ghost use Rattle.rig_model.specs.Host.{host_after};
ghost use Rattle.rig_model.specs.HostState.{row_at, is_awaited};
ghost use Rattle.rig_model.specs.Legal.{IsHistory, next_tick, counts, is_legal};
ghost use Rattle.rig_model.specs.Sources.{is_source, without_tenant, sources_of, kept_of};
ghost use Rattle.rig_model.specs.declared.events.Event.{Event};
ghost use Rattle.rig_model.specs.declared.logged.Logged.{Logged};
ghost use Rattle.rig_model.specs.Logs.{IsLegalLog, IsReplay, answers_in, events_of};
ghost use Rattle.rig_model.specs.Answers.{answers_of};
ghost use Rattle.rig_model.specs.Views.{row_of, view_of};
ghost use Rattle.rig_model.specs.DifferingScripts.{DifferInNoSource};
ghost use Rattle.rig_model.specs.Script.{past_after};
ghost use Rattle.rig_model.specs.TenantReplies.{own_replies};

/// If two lists of events, the newest first, give a tenant equal views, they give it equal answers.
pub fn equal_views_give_equal_answers()
    ensures { (setting : Setting) (past others : List Event) (t : ℕ) →
        view_of setting past t ≡ view_of setting others t → answers_of setting past t ≡ answers_of setting others t }
{}

/// After every legal list of events that begins with a base, each tenant's row in the whole host is that of the one-tenant machine over the
/// tenant's own view. The list has the newest event first. The host awaits exactly the completions that count. Its clock is the number of
/// the next instant.
pub fn whole_host()
    ensures rows { (setting : Setting) (past : List Event) (t : ℕ) → IsHistory setting past
        → is_tenant setting.config t ≡ true → row_at (host_after setting past) t ≡ row_of setting past t }
    ensures completions { (setting : Setting) (past : List Event) (j : JobId) → IsHistory setting past
        → is_tenant setting.config j.tenant ≡ true → is_awaited (host_after setting past) j ≡ counts setting past j }
    ensures clock { (setting : Setting) (past : List Event) → (host_after setting past).clock ≡ next_tick setting past }
{}

/// A new host is a base: a history can begin with it.
pub fn new_host_is_a_base()
    ensures { (config : Rig) (first_tick : ℕ) → IsBase config (new_base config first_tick) }
{}

/// The host after a legal list of events, the newest first, that begins with a base is a base again.
pub fn later_host_is_a_base()
    ensures { (setting : Setting) (past : List Event) → IsHistory setting past → IsBase setting.config (host_after setting past) }
{}

/// The part of a legal list of events that is kept for a tenant is legal too. The list begins with a base and has the newest event first.
pub fn kept_list_is_legal()
    ensures { (setting : Setting) (past : List Event) (t : ℕ) → IsHistory setting past → is_legal setting (kept_of setting past t) ≡ true }
{}

/// The part of a list of events that is kept for a tenant gives it the answers of the whole list. The list has the newest event first.
pub fn kept_list_gives_equal_answers()
    ensures { (setting : Setting) (past : List Event) (t : ℕ) → answers_of setting (kept_of setting past t) t ≡ answers_of setting past t }
{}

/// If the same part of two lists of events is kept for a tenant, they give it equal answers, whatever values are granted in either. The lists
/// have the newest event first.
pub fn equal_kept_lists_give_equal_answers()
    ensures { (setting : Setting) (past others : List Event) (t : ℕ) →
        kept_of setting past t ≡ kept_of setting others t → answers_of setting past t ≡ answers_of setting others t }
{}

/// A tenant that is a source of another at one place of a list is also its source at each earlier place.
pub fn sources_stay_sources()
    ensures { (setting : Setting) (t u : ℕ) (later more past : List Event) →
        is_source (sources_of setting t later (more ++ past)) u ≡ true → is_source (sources_of setting t (later ++ more) past) u ≡ true }
{}

/// If a tenant is nowhere in a list a source of another tenant, the other tenant's answers don't change, whatever commands and completions
/// of the first tenant are left out, added or changed.
pub fn no_source_changes_no_answer()
    ensures kept { (setting : Setting) (past others : List Event) (t u : ℕ) → is_source (sources_of setting t past []) u ≡ false
        → without_tenant u past ≡ without_tenant u others → kept_of setting past t ≡ kept_of setting others t }
    ensures answers { (setting : Setting) (past others : List Event) (t u : ℕ) → is_source (sources_of setting t past []) u ≡ false
        → without_tenant u past ≡ without_tenant u others → answers_of setting past t ≡ answers_of setting others t }
{}

/// The replies to a tenant's commands in a script's text are the tenant's answers by the model, over its view of the events that the lines
/// spell. This holds for each tenant, for all lines, and after any events.
pub fn own_replies_are_answers()
    ensures { (setting : Setting) (t : ℕ) (past : List Event) (lines : List (List ℕ)) →
        answers_of setting (past_after setting past lines) t ≡ answers_of setting past t ++ own_replies setting t past lines }
{}

/// If none of some tenants is anywhere in a script a source of another tenant, the replies to the other tenant's commands don't change,
/// whatever lines of those tenants are left out, added or changed. Each `op work` completes the jobs that are outstanding in its own script,
/// and these may differ. That makes none of those tenants a source.
pub fn no_source_changes_no_reply()
    ensures sources { (setting : Setting) (tenants : ℕ → Bool) (t : ℕ) (past : List Event) (lines others : List (List ℕ)) →
        DifferInNoSource setting tenants t past lines others
        → sources_of setting t (past_after setting past lines) [] ≡ sources_of setting t (past_after setting past others) [] }
    ensures kept { (setting : Setting) (tenants : ℕ → Bool) (t : ℕ) (past : List Event) (lines others : List (List ℕ)) →
        DifferInNoSource setting tenants t past lines others
        → kept_of setting (past_after setting past lines) t ≡ kept_of setting (past_after setting past others) t }
    ensures answers { (setting : Setting) (tenants : ℕ → Bool) (t : ℕ) (past : List Event) (lines others : List (List ℕ)) →
        DifferInNoSource setting tenants t past lines others
        → answers_of setting (past_after setting past lines) t ≡ answers_of setting (past_after setting past others) t }
    ensures replies { (setting : Setting) (tenants : ℕ → Bool) (t : ℕ) (past : List Event) (lines others : List (List ℕ)) →
        DifferInNoSource setting tenants t past lines others
        → own_replies setting t past lines ≡ own_replies setting t past others }
{}

/// A log that the host's steps give, from a base on, is a legal log.
pub fn replay_is_legal()
    ensures { (setting : Setting) (log : List Logged) → IsBase setting.config setting.base → IsReplay setting log → IsLegalLog setting log }
{}

/// The answers of a legal log to a tenant are the tenant's answers by the model, over the events of the log.
pub fn log_has_answers()
    ensures { (setting : Setting) (log : List Logged) (t : ℕ) → IsLegalLog setting log → answers_in log t ≡ answers_of setting (events_of log) t }
{}

/// The answers of a legal log to a tenant are its answers over the part of the log's events that is kept for it, and that part is legal.
pub fn log_has_kept_answers()
    ensures { (setting : Setting) (log : List Logged) (t : ℕ) → IsLegalLog setting log
        → answers_in log t ≡ answers_of setting (kept_of setting (events_of log) t) t }
{}
