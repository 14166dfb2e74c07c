//! The leader of some jobs: of those with the greatest weight the least.
ghost use Rattle.std.specs.Prelude.{◌≡◌, None};
ghost use Rattle.em_insight.specs.Leads.{none};
ghost use Rattle.em_insight.specs.Leads as leads;

/// The greatest weight of some jobs, and the least job that has it; no job where that weight is 0.
#[derive(Clone, Copy)]
pub(crate) struct Lead {
    pub weight: u64,
    pub job: Option<u32>,
}

impl Lead {
    /// The leader of no jobs.
    pub fn none() -> Lead
        ensures { result ≡ none }
    {
        Lead {
            weight: 0,
            job: None,
        }
    }

    /// The leader with one job more.
    pub fn offered(self, weight: u64, job: u32) -> Lead
        ensures { result ≡ leads.offered self weight job }
    {
        if self.weight < weight {
            return Lead {
                weight,
                job: Some(job),
            };
        }
        match self.job {
            Some(least) if weight == self.weight && job < least => Lead {
                weight,
                job: Some(job),
            },
            _ => self,
        }
    }
}
