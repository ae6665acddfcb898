//! Value change dumps: the tenants and the lines of a rig, by stamps.

use crate::rigs::RigScope;
use crate::scopes::Scope;
use giotto_tasks::names::Name;
use std::alloc::{AllocError, Global};

// What a dump begins with.
const HEAD: &str = "\
$version rig_host $end
$comment One unit of time is a tick. The values from #N on are those after instant N; the last stamp has those at the end of the script. $end
";

/// A value change dump. It has what is written before the changes of the second stamp; those changes are the caller's to keep.
#[derive(Drop)]
pub struct Dump {
    tenants: Vec<Scope>,
    rig: RigScope,
    // The changes at #0.
    first: String,
    // How many stamps there are.
    stamps: u64,
}

impl Dump {
    /// A dump without tenants and lines.
    pub fn new(alloc: Global) -> Dump {
        Dump {
            tenants: Vec::new(alloc),
            rig: RigScope::new(alloc),
            first: String::new(alloc),
            stamps: 0,
        }
    }

    /// Adds a tenant after the others. Add all tenants and lines before the first stamp.
    ///
    /// # Errors
    /// Out of memory.
    pub fn add_tenant(&mut self, alloc: Global, name: &Name) -> Result<(), AllocError> {
        let scope = Scope::new(alloc, name)?;
        self.tenants.push(scope)?;
        Ok(())
    }

    /// The variables of the tenant at this place, if there is one. Places are counted from 0.
    pub fn tenant(&mut self, place: usize) -> Option<&mut Scope> {
        self.tenants.get_mut(place)
    }

    /// The variables of the rig's lines.
    pub fn rig(&mut self) -> &mut RigScope {
        &mut self.rig
    }

    /// Whether no stamp was ended yet.
    pub fn is_first(&self) -> bool {
        self.stamps == 0
    }

    /// Begins the next stamp: replaces the text with the stamp's line, which the first stamp doesn't have. The stamp's changes are to be added.
    ///
    /// # Errors
    /// Out of memory.
    pub fn begin(&self, text: &mut String) -> Result<(), AllocError> {
        text.clear();
        if self.is_first() {
            return Ok(());
        }
        let stamp = self.stamps;
        writeln!(text, "#{stamp}")
    }

    /// Ends the stamp with this text. What is left in the text is to be written after the head: nothing of the first stamp, which the head has,
    /// and all of any other.
    ///
    /// # Errors
    /// Out of memory.
    pub fn end(&mut self, text: &mut String) -> Result<(), AllocError> {
        if self.is_first() {
            self.first.push_str(text.as_str())?;
            text.clear();
        }
        self.stamps = self.stamps.saturating_add(1);
        Ok(())
    }

    /// What the dump begins with: the declarations and the first stamp. The other stamps follow. `timescale` is the duration of a tick.
    ///
    /// # Errors
    /// Out of memory.
    pub fn head(&self, alloc: Global, timescale: &str) -> Result<String, AllocError> {
        let mut text = String::from_str(alloc, HEAD)?;
        writeln!(text, "$timescale {timescale} $end")?;
        self.declare(alloc, &mut text)?;
        text.push_str("$enddefinitions $end\n#0\n$dumpvars\n")?;
        text.push_str(self.first.as_str())?;
        for scope in &self.tenants {
            scope.write_late(&mut text)?;
        }
        text.push_str("$end\n")?;
        Ok(text)
    }

    // Declares all variables.
    fn declare(&self, alloc: Global, text: &mut String) -> Result<(), AllocError> {
        for scope in &self.tenants {
            scope.declare(text)?;
        }
        self.rig.declare(alloc, text)
    }

    /// A save file for gtkwave, which shows each tenant's state, mode, tasks, actuators and sensors, and then the rig's lines. `path` is that
    /// of the dump, if the save file is to name it.
    ///
    /// # Errors
    /// Out of memory.
    pub fn save(&self, alloc: Global, path: Option<&str>) -> Result<String, AllocError> {
        let mut text = String::from_str(alloc, "[*] rig_host\n")?;
        if let Some(path) = path {
            writeln!(text, "[dumpfile] \"{path}\"")?;
        }
        text.push_str("[timestart] 0\n")?;
        for scope in &self.tenants {
            scope.save(&mut text)?;
        }
        self.rig.save(&mut text)?;
        Ok(text)
    }
}
