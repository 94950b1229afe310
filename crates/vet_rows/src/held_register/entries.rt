//! Criteria, entries and publisher records can be held.
ghost use Rattle.vet_item_rows.specs.ReadHeld.{IsPackageValue};
ghost use Rattle.vet_item_rows.specs.Values.{IsCriterion, IsEntry, IsHeldEntry, IsKind, IsPublisher, IsSource};
ghost use Rattle.vet_item_rows.specs.Values.{IsWindow};

use crate::held_register::can_be_held::{CanBeHeld, are_held};
use vet_base::criterion::Criterion;
use vet_entries::entry::{Entry, Source};
use vet_entries::facts::HeldEntry;
use vet_entries::kind::{Kind, Window};
use vet_entries::publisher::Publisher;
use vet_entries::publisher_records::PackagePublishers;

impl CanBeHeld for Criterion {
    ghost can_be_held = { IsCriterion };

    fn is_held(&self) {
        self.name.is_held();
        self.description.is_held();
        self.url.is_held();
        self.implies.is_held();
    }
}

impl CanBeHeld for Source {
    ghost can_be_held = { IsSource };

    fn is_held(&self) {
        match self {
            Source::Own => {}
            Source::Peer(name) => name.is_held(),
        }
    }
}

impl CanBeHeld for Window {
    ghost can_be_held = { IsWindow };

    fn is_held(&self) {
        self.user.is_held();
        self.first.is_held();
        self.last.is_held();
    }
}

impl CanBeHeld for Kind {
    ghost can_be_held = { IsKind };

    fn is_held(&self) {
        match self {
            Kind::Full(version, audit) => {
                version.is_held();
                audit.who.is_held();
            }
            Kind::Delta(delta, audit) => {
                delta.from.is_held();
                delta.to.is_held();
                audit.who.is_held();
            }
            Kind::Violation(req, audit) => {
                let _ = req.as_str();
                audit.who.is_held();
            }
            Kind::Wildcard(window, grant) => {
                window.is_held();
                grant.who.is_held();
            }
            Kind::Trusted(window) => window.is_held(),
            Kind::Exemption {
                version,
                suggest: _,
                last_day,
            } => {
                version.is_held();
                last_day.is_held();
            }
        }
    }
}

impl CanBeHeld for Entry {
    ghost can_be_held = { IsEntry };

    fn is_held(&self) {
        self.source.is_held();
        self.package.is_held();
        self.kind.is_held();
        self.criteria.is_held();
        self.notes.is_held();
    }
}

impl CanBeHeld for HeldEntry {
    ghost can_be_held = { IsHeldEntry };

    fn is_held(&self) {
        self.entry.is_held();
    }
}

impl CanBeHeld for Publisher {
    ghost can_be_held = { IsPublisher };

    fn is_held(&self) {
        self.version.is_held();
        self.user.is_held();
        self.day.is_held();
        self.login.is_held();
        self.name.is_held();
    }
}

impl CanBeHeld for PackagePublishers {
    ghost can_be_held = { IsPackageValue };

    fn is_held(&self) {
        self.package.is_held();
        are_held(self.publishers.as_slice());
    }
}
