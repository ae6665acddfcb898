//! Laws of the definitions, each a function that carries it. A body only names the laws from which it follows.

ghost use Rattle.std.specs.Prelude.{◌≡◌, ℕ, Bool, List, true};
ghost use Rattle.plant_couplings.specs.declared.couplings.Plant.{Plant};
ghost use Rattle.plant_laws.specs.Closed.{IsClosed};
ghost use Rattle.plant_laws.specs.ClosedLoop.{Dynamics, LoopsDifferOutside};
ghost use Rattle.plant_laws.specs.Seen.{DifferUnseen, seen_of};
ghost use Rattle.plant_laws.specs.SeenLines.{ScriptsDifferUnseen};
ghost use Rattle.rig_model.specs.Answers.{answers_of};
ghost use Rattle.rig_model.specs.Base.{Setting};
ghost use Rattle.rig_model.specs.Script.{past_after};
ghost use Rattle.rig_model.specs.TenantReplies.{own_replies};
ghost use Rattle.rig_model.specs.config.Roster.{is_tenant};
ghost use Rattle.rig_model.specs.declared.events.Event.{Event};
ghost use Rattle.tenant_sources.specs.Links.{is_source_of};

use rig_laws::laws::own_replies_are_answers;
use tenant_sources::tables::links_lead_to_sources;

/// If two lists of events, the newest first, differ only in what tenants do that are no sources of a tenant anywhere in the first, and in the values
/// of lines that none of its sources may read, they give the tenant equal answers and the same sources.
pub fn unseen_changes_no_answer()
    ensures answers { (setting : Setting) (members : ℕ → Bool) (t : ℕ) (past others : List Event) →
        DifferUnseen setting members t past others → answers_of setting past t ≡ answers_of setting others t }
    ensures sources { (setting : Setting) (members : ℕ → Bool) (t : ℕ) (past others : List Event) →
        DifferUnseen setting members t past others → (u : ℕ) → is_source_of setting past t u ≡ is_source_of setting others t u }
{
    links_lead_to_sources();
}

/// If two scripts differ only in the lines of tenants outside a set, and in the values of lines of the rig that no member of the set may read, and each
/// source that a member has in the first is a member, then the replies to each member's commands are the same. Each `op work` completes the jobs that
/// are outstanding in its own script, and those of other tenants may differ.
pub fn unseen_changes_no_reply()
    ensures seen { (setting : Setting) (members : ℕ → Bool) (past : List Event) (lines others : List (List ℕ)) →
        ScriptsDifferUnseen setting members past lines others
        → seen_of setting.config members (past_after setting past lines) ≡ seen_of setting.config members (past_after setting past others) }
    ensures replies { (setting : Setting) (members : ℕ → Bool) (past : List Event) (lines others : List (List ℕ)) →
        ScriptsDifferUnseen setting members past lines others
        → (t : ℕ) → members t ≡ true → own_replies setting t past lines ≡ own_replies setting t past others }
{
    links_lead_to_sources();
    own_replies_are_answers();
}

/// If a plant keeps to its declaration and makes the frames of two lists of events, the newest first, which differ only in what tenants outside a closed
/// set do, then each member of the set is given equal answers, however the frames differ. In a closed set are all sources of its members, and all
/// tenants by which a member is driven through the plant.
pub fn closed_set_has_equal_answers()
    ensures seen { (setting : Setting) (plant : Plant) (dynamics : Dynamics) (members : ℕ → Bool) (past others : List Event) →
        LoopsDifferOutside setting plant dynamics members past others → seen_of setting.config members past ≡ seen_of setting.config members others }
    ensures answers { (setting : Setting) (plant : Plant) (dynamics : Dynamics) (members : ℕ → Bool) (past others : List Event) →
        LoopsDifferOutside setting plant dynamics members past others → (t : ℕ) → members t ≡ true → answers_of setting past t ≡ answers_of setting others t }
{
    links_lead_to_sources();
}

/// A source of a tenant of the roster is a tenant of the roster.
pub fn sources_are_tenants()
    ensures { (setting : Setting) (past : List Event) (t u : ℕ) → is_tenant setting.config t ≡ true → is_source_of setting past t u ≡ true → is_tenant setting.config u ≡ true }
{
    links_lead_to_sources();
}
