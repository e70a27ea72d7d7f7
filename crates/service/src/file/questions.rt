// Questions of a services file. Out of range they answer 0, as every community does.
ghost use Rattle.std.specs.Prelude.{◌≡◌, MatchOption};
ghost use Rattle.service.specs.File.{contents, no_service, zero_file};
ghost use Rattle.service.specs.FileTables.{service_at, tables_of, initial_of, finals_of};

use super::CommunityFile;
use crate::limits::MAX_SERVICES;
use crate::service::Service;

impl CommunityFile {
    // One service with one state and one action, which cannot be done.
    pub fn zero() -> CommunityFile
        ensures { contents result ≡ zero_file }
    {
        CommunityFile {
            count: 1,
            actions: 1,
            services: [Service::zero(); MAX_SERVICES],
        }
    }

    pub fn services(&self) -> u8
        ensures { result ≡ (tables_of (contents self.now)).services }
    {
        self.count
    }

    pub fn actions(&self) -> u8
        ensures { result ≡ (tables_of (contents self.now)).actions }
    {
        self.actions
    }

    // A service that the file has.
    fn service(&self, service: u8) -> Option<&Service>
        ensures { MatchOption result (service_at (contents self.now) service ≡ no_service) (λ x. x.now ≡ service_at (contents self.now) service) }
    {
        self.services[..usize::from(self.count)].get(usize::from(service))
    }

    pub fn states(&self, service: u8) -> u8
        ensures { result ≡ (tables_of (contents self.now)).states service }
    {
        self.service(service).map_or(0, Service::states)
    }

    pub fn initial(&self, service: u8) -> u8
        ensures { result ≡ initial_of (contents self.now) service }
    {
        self.service(service).map_or(0, Service::initial)
    }

    // The set of final states.
    pub fn finals(&self, service: u8) -> u16
        ensures { result ≡ finals_of (contents self.now) service }
    {
        self.service(service).map_or(0, Service::finals)
    }

    // The set of next states of a service from a state by an action.
    pub fn entry(&self, service: u8, state: u8, action: u8) -> u16
        ensures { result ≡ (tables_of (contents self.now)).entry service state action }
    {
        match self.service(service) {
            Some(x) if state < x.states() && action < self.actions => x.entry(state, action),
            _ => 0,
        }
    }
}
