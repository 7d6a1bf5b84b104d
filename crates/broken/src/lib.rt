// Contents that do not have their layout, as the box answers them: number and place, through its calls. There is no code here.

#![tactic(auto)]
