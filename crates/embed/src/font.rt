ghost use Rattle.std.specs.Prelude.{◌≡◌, Option, Some, None};
ghost use Rattle.std.specs.Option.{MatchOption};
ghost use Rattle.std.specs.Coded.{coded_option};
ghost use Rattle.font_metrics.specs.Metrics.{MetricsValue};
ghost use Rattle.font_metrics.specs.contracts.metrics.Metrics.{the_row};

use crate::loose::Loose;
use font_metrics::Metrics;
use std::alloc::Global;
use std::marker::Model;
use std::mem;
use std::ptr::null_mut;

/// A handle of metrics: what C holds of the metrics of a font, where they lie, or null. It is as
/// large as a pointer, and whoever has it owns the metrics.
#[repr(C)]
pub struct Font {
    at: *mut u8,
    pub ghost kept: { Option MetricsValue } by { coded_option the_row.coded },
}

impl Model for Font {
    ghost use Rattle.embed.specs.Owned.{font_owns};

    ghost also_owns = { λ font. font_owns font.at font.kept };
}

impl Font {
    /// A handle that keeps nothing.
    pub(crate) fn closed() -> Font
        ensures { result.kept ≡ None }
    {
        Font { at: null_mut() }
    }

    /// A handle that keeps the metrics.
    pub(crate) fn of(metrics: Loose<Metrics, Global>) -> Font
        ensures { result.kept ≡ Some metrics.value }
    {
        let Loose { at, alloc: _ } = metrics;
        Font { at: at as *mut u8 }
    }

    /// What the handle keeps, taken apart.
    pub(crate) fn into_loose(self, alloc: Global) -> Option<Loose<Metrics, Global>>
        ensures { MatchOption result (self.kept ≡ None) (λ l. self.kept ≡ Some l.value) }
    {
        let Font { at } = self;
        if at.is_null() {
            None
        } else {
            Some(Loose {
                at: at as *mut Metrics,
                alloc,
            })
        }
    }

    /// Takes out what the handle keeps, and leaves it closed.
    pub(crate) fn take(&mut self, alloc: Global) -> Option<Box<Metrics>>
        ensures taken { MatchOption result (self.old.kept ≡ None) (λ metrics. self.old.kept
            ≡ Some metrics.value) }
        ensures closed { self.new.kept ≡ None }
    {
        match mem::replace(self, Font::closed()).into_loose(alloc) {
            Some(loose) => Some(loose.into_box()),
            None => None,
        }
    }

    /// Keeps metrics, and drops those that were kept.
    pub(crate) fn keep(&mut self, alloc: Global, metrics: Box<Metrics>)
        ensures { self.new.kept ≡ Some metrics.value }
    {
        let old = mem::replace(self, Font::of(Loose::of(metrics)));
        if let Some(loose) = old.into_loose(alloc) {
            mem::drop(loose.into_box());
        }
    }
}
