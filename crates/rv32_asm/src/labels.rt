// The labels of a text, found by their names.

ghost use Rattle.rv32_asm.specs.Labels.{is_there, site_of};
ghost use Rattle.rv32_asm.specs.SeenLabels.{AreAlike};
ghost use Rattle.rv32_asm_syntax.specs.declared.fault.AsmFault.TheVariants.{Twice};
ghost use Rattle.rv32_asm_syntax.specs.declared.fault.AsmFault.{AsmFault};
ghost use Rattle.rv32_asm_syntax.specs.declared.fault.LineError.TheVariants.{Fault};
ghost use Rattle.std.specs.Prelude.{Err, OnOk, [], false, true, ◌∷◌, ◌≡◌};

use rv32_asm_syntax::{AsmFault, LineError};
use sec_base::NoMemory;
use std::alloc::Global;
use std::collections::BTreeMap;
use std::marker::Model;

/// Where a label stands: its address, and the number of its line.
#[derive(Clone, Copy)]
pub struct Site {
    pub address: u32,
    pub line: u32,
}

impl Model for Site {
    ghost use Rattle.rv32_asm.specs.Labels as meant;

    ghost Value = { meant.Site };

    ghost view = { λ site. record { address = site.address; line = site.line } };

    ghost inverse = { λ site. record { address = site.address; line = site.line } };
}

/// The addresses and the lines of labels by their names, which contracts see as a list.
#[derive(Drop)]
pub struct Labels<'a> {
    by_name: BTreeMap<&'a [u8], (u32, u32)>,
}

impl<'a> Model for Labels<'a> {
    ghost use Rattle.rv32_asm.specs.Labels as meant;
    ghost use Rattle.rv32_asm.specs.SeenLabels.{seen_labels};
    ghost use Rattle.std.specs.Prelude.{List};

    ghost Value = { List meant.Label };

    ghost view = { λ seen. seen_labels seen.by_name.entries };
}

impl<'a> Labels<'a> {
    /// No labels.
    pub fn new(alloc: Global) -> Self
        ensures { result ≡ [] }
    {
        Labels {
            by_name: BTreeMap::new(alloc),
        }
    }

    /// Where the label of a name stands.
    pub fn get(&self, name: &[u8]) -> Option<Site>
        ensures { result ≡ site_of self.now name.now }
    {
        let (address, line) = *self.by_name.get(name)?;
        Some(Site { address, line })
    }

    // Puts a label among the others, in place of one of its name.
    fn insert(&mut self, name: &'a [u8], site: Site) -> Result<(), NoMemory>
        ensures { OnOk result (AreAlike
            (record { name = name.now; site = site } ∷ self.old)
            self.new) }
    {
        self.by_name.insert(name, (site.address, site.line))?;
        Ok(())
    }

    /// Adds a label, whose name isn't there already.
    pub fn add(&mut self, name: &'a [u8], site: Site) -> Result<(), LineError>
        ensures new { OnOk result (is_there self.old name.now ≡ false) }
        ensures added { OnOk result (AreAlike
            (record { name = name.now; site = site } ∷ self.old)
            self.new) }
        ensures fault { (fault : AsmFault) → result ≡ Err (Fault fault) → fault ≡ Twice }
        ensures twice { (fault : AsmFault) → result ≡ Err (Fault fault) →
            is_there self.old name.now ≡ true }
    {
        if self.get(name).is_some() {
            return Err(LineError::Fault(AsmFault::Twice));
        }
        self.insert(name, site)?;
        Ok(())
    }
}
