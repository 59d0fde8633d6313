// 01, Sequents: the services. check is rules' verdict; these are the replies of the two that write.
#![tactic(auto)]

pub mod tags;
