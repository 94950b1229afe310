//! Names, texts, versions, days and users can be held, and sets of names and texts.
ghost use Rattle.vet_base.specs.Version.{IsVersion};
ghost use Rattle.vet_item_rows.specs.Values.{AreNames, ArePackages, AreTexts, IsDay, IsName, IsPackage, IsText, IsUser};

use crate::held_register::can_be_held::{CanBeHeld, are_held};
use vet_base::day::Day;
use vet_base::name::{Name, PackageName};
use vet_base::names::Names;
use vet_base::package_names::PackageNames;
use vet_base::text::Text;
use vet_base::texts::Texts;
use vet_base::version::{VetVersion, version_text_reads_back};
use vet_entries::user::User;

impl CanBeHeld for Text {
    ghost can_be_held = { IsText };

    fn is_held(&self) {
        let _ = self.as_str();
    }
}

impl CanBeHeld for Name {
    ghost can_be_held = { IsName };

    fn is_held(&self) {
        let _ = self.as_str();
    }
}

impl CanBeHeld for PackageName {
    ghost can_be_held = { IsPackage };

    fn is_held(&self) {
        let _ = self.as_str();
    }
}

impl CanBeHeld for VetVersion {
    ghost can_be_held = { IsVersion };

    fn is_held(&self) {
        version_text_reads_back(self);
    }
}

impl CanBeHeld for Day {
    ghost can_be_held = { IsDay };

    fn is_held(&self) {
        let _ = self.number();
    }
}

impl CanBeHeld for User {
    ghost can_be_held = { IsUser };

    fn is_held(&self) {
        let _ = self.number();
    }
}

impl CanBeHeld for Names {
    ghost can_be_held = { AreNames };

    fn is_held(&self) {
        are_held(self.as_slice());
    }
}

impl CanBeHeld for PackageNames {
    ghost can_be_held = { ArePackages };

    fn is_held(&self) {
        are_held(self.as_slice());
    }
}

impl CanBeHeld for Texts {
    ghost can_be_held = { AreTexts };

    fn is_held(&self) {
        are_held(self.as_slice());
    }
}
