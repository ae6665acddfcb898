//! A law of the definitions.

ghost use Rattle.std.specs.Prelude.{Bool, List};
ghost use Rattle.plant_couplings.specs.declared.couplings.Plant.{Plant};
ghost use Rattle.rig_model.specs.Base.{Setting};
ghost use Rattle.rig_model.specs.declared.events.Event.{Event};
ghost use Rattle.rig_retests.specs.Named.{AreNamed, is_named_by};
ghost use Rattle.rig_retests.specs.Reached.{IsReachTable};
ghost use Rattle.tenant_sources.specs.Links.{IsLinkTable, Links};

use tenant_sources::tables::links_lead_to_sources;

/// A report names exactly the tenants whom a change can reach if the plant is declared, and else exactly those that have the other as a source.
pub fn reached_are_named()
    ensures { (setting : Setting) (plant : Plant) (past : List Event) (rows : List (List Bool)) (links : Links) →
        IsLinkTable setting past links → IsReachTable plant rows setting past → AreNamed setting plant past (is_named_by plant rows links) }
{
    links_lead_to_sources();
}
